//! The query of a scrape: its parameters, as a web form writes them.
ghost use Rattle.std.specs.Prelude.{◌≡◌, [], IfOk, OnOk, drop, string_bytes};
ghost use Rattle.label_sets.specs.Labels.{label_text};
ghost use Rattle.sd_documents.specs.FirstLabels.{param_label};
ghost use Rattle.form_urlencoded.specs.Form.{extend_pairs};
ghost use Rattle.http_get.specs.Queries.{job_values, values_of, named, query_of as the_query};

use crate::names::names_of;
use form_urlencoded::Serializer;
use label_sets::Labels;
use lists::Text;
use sd_documents::Param;
use std::alloc::{AllocError, Global};

/// The query of a job's parameters and a target's labels. It is empty where no parameter has a value.
pub(crate) fn query_of(
    alloc: Global,
    params: &[Param],
    labels: &Labels,
) -> Result<String, AllocError>
    ensures { IfOk result (λ q. string_bytes q ≡ the_query params.now labels.now) }
{
    let names = names_of(alloc, params, labels)?;
    let mut query = Serializer::new(String::new(alloc));
    for name in names.as_slice() {
        add_parameter(alloc, &mut query, params, labels, name.as_str())?;
    }
    Ok(query.finish())
}

/// Adds a parameter with each of its values.
fn add_parameter(
    alloc: Global,
    query: &mut Serializer<Global>,
    params: &[Param],
    labels: &Labels,
    name: &str,
) -> Result<(), AllocError>
    ensures { OnOk result (query.new ≡ record query.old { form = extend_pairs query.old.form (named name.now (values_of params.now labels.now name.now)) }) }
{
    let own = values_in(params, name);
    let label = label_of(alloc, labels, name)?;
    if label.is_empty() {
        return add_values(query, name, own);
    }
    query.append_pair(name, label)?;
    add_values(query, name, past_first(own))
}

fn add_values(query: &mut Serializer<Global>, name: &str, values: &[Text]) -> Result<(), AllocError>
    ensures { OnOk result (query.new ≡ record query.old { form = extend_pairs query.old.form (named name.now values.now) }) }
{
    for value in values {
        query.append_pair(name, value.as_str())?;
    }
    Ok(())
}

/// The text of a parameter's label, empty where there is none.
fn label_of<'a>(alloc: Global, labels: &'a Labels, name: &str) -> Result<&'a str, AllocError>
    ensures { IfOk result (λ text. text.now ≡ label_text labels.now (param_label name.now)) }
{
    let mut label = String::from_str(alloc, "__param_")?;
    label.push_str(name)?;
    Ok(labels.get(label.as_str()))
}

/// The values that a job gives a parameter.
fn values_in<'a>(params: &'a [Param], name: &str) -> &'a [Text]
    ensures { result.now ≡ job_values params.now name.now }
{
    for param in params {
        if param.name.as_str() == name {
            return param.values.as_slice();
        }
    }
    &[]
}

fn past_first(values: &[Text]) -> &[Text]
    ensures { result.now ≡ drop 1 values.now }
{
    match values {
        [_, others @ ..] => others,
        [] => values,
    }
}
