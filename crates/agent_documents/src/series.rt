//! Series by their labels. A target's scrapes are stored under its public labels, which do not begin with `__`; Prometheus tells a
//! series with these labels and its name.
ghost use Rattle.std.specs.Prelude.{◌≡◌, [], IfOk, codes, if◌then◌else◌, nat_eq};
ghost use Rattle.std.specs.List.{starts_with};
ghost use Rattle.serde_json.specs.View.{view, members_view};
ghost use Rattle.label_sets.specs.Labels.{without};
ghost use Rattle.agent_documents.specs.Reading.{Gives};
ghost use Rattle.agent_documents.specs.Series.{label_said, labels_from, metric_said, public_labels, series_of};

use crate::error::{DocumentError, Part};
use agent_core::Series;
use label_sets::{LabelError, Labels};
use lists::Plain;
use serde_json::{Map, Value};
use std::alloc::{AllocError, Global};

/// The series of a target's scrapes: its public labels.
pub fn series_of_labels(labels: &Labels) -> Result<Series, AllocError>
    ensures { IfOk result (λ s. s ≡ series_of (public_labels labels.now)) }
{
    let mut kept = labels.copy()?;
    for (name, _) in labels.entries() {
        remove_private(&mut kept, name.as_str());
    }
    series_for(&kept)
}

/// Removes a label that is not public.
fn remove_private(labels: &mut Labels, name: &str)
    ensures { labels.new ≡ (if starts_with nat_eq name.now (codes "__") then without labels.old name.now else labels.old) }
{
    if name.as_bytes().starts_with(b"__") {
        labels.remove(name);
    }
}

/// The series of which Prometheus tells by an object of its labels, without its name.
pub fn series_of_metric(alloc: Global, metric: &Value) -> Result<Series, DocumentError>
    ensures { Gives (λ s. s) result (metric_said (view metric.now)) }
{
    let members = metric
        .as_object()
        .ok_or(DocumentError::Shape(Part::Metric))?;
    let labels = labels_in(alloc, members)?;
    let series = unnamed(labels)?;
    Ok(series)
}

/// The series without its name.
fn unnamed(labels: Labels) -> Result<Series, AllocError>
    ensures { IfOk result (λ s. s ≡ series_of (without labels (codes "__name__"))) }
{
    let mut labels = labels;
    labels.remove("__name__");
    series_for(&labels)
}

fn labels_in(alloc: Global, members: &Map<String, Value>) -> Result<Labels, DocumentError>
    ensures { Gives (λ l. l) result (labels_from [] (members_view members.now.entries)) }
{
    let mut labels = Labels::new(alloc);
    for (name, value) in members.iter() {
        add(&mut labels, name.as_str(), value)?;
    }
    Ok(labels)
}

/// Gives the labels one more.
fn add(labels: &mut Labels, name: &str, value: &Value) -> Result<(), DocumentError>
    ensures { Gives (λ _. labels.new) result (label_said labels.old name.now (view value.now)) }
{
    let text = value.as_str().ok_or(DocumentError::Shape(Part::Metric))?;
    match labels.set(name, text) {
        Ok(()) => Ok(()),
        Err(LabelError::BadLabelName) => Err(DocumentError::Shape(Part::Metric)),
        Err(LabelError::Memory) => Err(DocumentError::Memory),
    }
}

/// The series of these labels.
fn series_for(labels: &Labels) -> Result<Series, AllocError>
    ensures { IfOk result (λ s. s ≡ series_of labels.now) }
{
    let labels = labels.to_json()?;
    Ok(Series { labels })
}
