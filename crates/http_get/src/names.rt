//! The names of a scrape's parameters, in byte order.
ghost use Rattle.std.specs.Prelude.{◌≡◌, ◌≤◌, length, map, IfOk, IfErr, OnOk};
ghost use Rattle.std.specs.List.{insert};
ghost use Rattle.sd_documents.specs.declared.config.Param.{Param};
ghost use Rattle.http_get.specs.Queries.{labelled_names, with_name, with_names, parameter_names};

use crate::prefix::behind;
use label_sets::{LabelName, Labels};
use lists::Text;
use sd_documents::Param;
use std::alloc::{AllocError, Global};
use std::cmp::Ordering;

/// The names of a job's parameters and of a target's `__param_` labels, each once.
pub(crate) fn names_of(
    alloc: Global,
    params: &[Param],
    labels: &Labels,
) -> Result<Vec<Text>, AllocError>
    ensures { IfOk result (λ names. names.items ≡ parameter_names params.now labels.now) }
{
    let mut names = Vec::new(alloc);
    put_params(alloc, &mut names, params)?;
    put_labels(alloc, &mut names, labels.entries())?;
    Ok(names)
}

fn put_params(alloc: Global, names: &mut Vec<Text>, params: &[Param]) -> Result<(), AllocError>
    ensures { OnOk result (names.new.items ≡ with_names names.old.items (map (λ (p : Param). p.name) params.now)) }
{
    for param in params {
        put(alloc, names, param.name.as_str())?;
    }
    Ok(())
}

fn put_labels(
    alloc: Global,
    names: &mut Vec<Text>,
    labels: &[(LabelName, Text)],
) -> Result<(), AllocError>
    ensures { OnOk result (names.new.items ≡ with_names names.old.items (labelled_names labels.now)) }
{
    for label in labels {
        if let Some(name) = behind("__param_", label.0.as_str()) {
            put(alloc, names, name)?;
        }
    }
    Ok(())
}

/// Puts a name where it belongs, unless it is there.
fn put(alloc: Global, names: &mut Vec<Text>, name: &str) -> Result<(), AllocError>
    ensures { OnOk result (names.new.items ≡ with_name names.old.items name.now) }
{
    if let Err(index) = index_of(names.as_slice(), name) {
        names.insert(index, Text::from_str(alloc, name)?)?;
    }
    Ok(())
}

/// Where the name stands, or where it belongs.
fn index_of(names: &[Text], name: &str) -> Result<usize, usize>
    ensures here { IfOk result (λ _. with_name names.now name.now ≡ names.now) }
    ensures gap { IfErr result (λ i. with_name names.now name.now ≡ insert names.now i name.now) }
    ensures within { IfErr result (λ i. i ≤ length names.now) }
{
    for (index, other) in names.iter().enumerate() {
        match name.cmp(other.as_str()) {
            Ordering::Less => return Err(index),
            Ordering::Equal => return Ok(index),
            Ordering::Greater => {}
        }
    }
    Err(names.len())
}
