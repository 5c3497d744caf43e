//! The first labels of a target.
ghost use Rattle.std.specs.Prelude.{◌≡◌, ◌≤◌, length, IfOk, OnOk, IsTrue};
ghost use Rattle.label_sets.specs.Name.{is_label_name};
ghost use Rattle.label_sets.specs.Labels.{with_label};
ghost use Rattle.sd_documents.specs.FirstLabels.{or_label, with_url, with_address, with_settings, with_value, with_param, with_params, first_labels as first_labels_of};

use crate::config::{Job, Param};
use crate::group::Group;
use label_sets::{LabelError, LabelName, Labels};
use lists::{Plain, Text};
use std::alloc::{AllocError, Global};

/// The labels of a target before any rule. Source 0 is the job's static groups, and source 1 + i its i-th URL.
pub fn first_labels(
    alloc: Global,
    job: &Job,
    group: &Group,
    target: &str,
    source: u32,
) -> Result<Labels, AllocError>
    requires { source ≤ length job.now.http_urls }
    ensures { IfOk result (λ l. l ≡ first_labels_of job.now group.now target.now source) }
{
    let mut labels = group.labels.copy()?;
    let urls = job.http_urls.as_slice();
    set_address(&mut labels, urls, source as usize, target)?;
    set_settings(&mut labels, job)?;
    set_params(alloc, &mut labels, job.params.as_slice())?;
    Ok(labels)
}

fn set_address(
    labels: &mut Labels,
    urls: &[Text],
    source: usize,
    target: &str,
) -> Result<(), AllocError>
    requires { source ≤ length urls.now }
    ensures { OnOk result (labels.new ≡ with_address labels.old urls.now source target.now) }
{
    set_url(labels, urls, source)?;
    set(labels, "__address__", target)
}

fn set_settings(labels: &mut Labels, job: &Job) -> Result<(), AllocError>
    ensures { OnOk result (labels.new ≡ with_settings labels.old job.now) }
{
    set_missing(labels, "job", job.name.as_str())?;
    set_missing(labels, "__scheme__", job.scheme.as_str())?;
    set_missing(labels, "__metrics_path__", job.metrics_path.as_str())
}

fn set_url(labels: &mut Labels, urls: &[Text], source: usize) -> Result<(), AllocError>
    requires { source ≤ length urls.now }
    ensures { OnOk result (labels.new ≡ with_url labels.old urls.now source) }
{
    if source == 0 {
        return Ok(());
    }
    set(labels, "__meta_url", urls[source - 1].as_str())
}

fn set_params(alloc: Global, labels: &mut Labels, params: &[Param]) -> Result<(), AllocError>
    ensures { OnOk result (labels.new ≡ with_params labels.old params.now) }
{
    for param in params {
        set_param(alloc, labels, param)?;
    }
    Ok(())
}

fn set_param(alloc: Global, labels: &mut Labels, param: &Param) -> Result<(), AllocError>
    ensures { OnOk result (labels.new ≡ with_param labels.old param.now) }
{
    match param.values.as_slice().first() {
        Some(value) => set_value(alloc, labels, param.name.as_str(), value.as_str()),
        None => Ok(()),
    }
}

/// Gives a parameter's label the value, where the parameter makes a label name.
fn set_value(alloc: Global, labels: &mut Labels, name: &str, value: &str) -> Result<(), AllocError>
    ensures { OnOk result (labels.new ≡ with_value labels.old name.now value.now) }
{
    let mut label = String::from_str(alloc, "__param_")?;
    label.push_str(name)?;
    match LabelName::read(alloc, label.as_str()) {
        Ok(label) => set_missing(labels, label.as_str(), value),
        Err(LabelError::BadLabelName) => Ok(()),
        Err(LabelError::Memory) => Err(AllocError),
    }
}

/// Gives the name the text, where the name is missing.
fn set_missing(labels: &mut Labels, name: &str, text: &str) -> Result<(), AllocError>
    requires { IsTrue (is_label_name name.now) }
    ensures { OnOk result (labels.new ≡ or_label labels.old name.now text.now) }
{
    if !labels.get(name).is_empty() {
        return Ok(());
    }
    set(labels, name, text)
}

fn set(labels: &mut Labels, name: &str, text: &str) -> Result<(), AllocError>
    requires { IsTrue (is_label_name name.now) }
    ensures { OnOk result (labels.new ≡ with_label labels.old name.now text.now) }
{
    match labels.set(name, text) {
        Ok(()) => Ok(()),
        Err(LabelError::Memory) => Err(AllocError),
        Err(LabelError::BadLabelName) => unreachable!(),
    }
}
