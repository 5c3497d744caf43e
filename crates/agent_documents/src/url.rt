//! The URL of a target, of its labels.
ghost use Rattle.std.specs.Prelude.{◌≡◌, ◌++◌, [], IfOk, OnOk};
ghost use Rattle.std.specs.List.{cons_option};
ghost use Rattle.agent_documents.specs.Urls.{base_of, parameter_of, parameters_of, slash_before, url_of};

use agent_core::{Parameter, Url};
use label_sets::{LabelName, Target};
use lists::{List, Text};
use std::alloc::{AllocError, Global};

/// The URL of a target, before it is escaped.
pub(crate) fn url_of(alloc: Global, target: &Target) -> Result<Url, AllocError>
    ensures { IfOk result (λ u. u ≡ url_of target.now) }
{
    let base = base_of(alloc, target)?;
    let parameters = parameters_of(alloc, target.labels().entries())?;
    Ok(Url { base, parameters })
}

/// What stands before the query.
fn base_of(alloc: Global, target: &Target) -> Result<Text, AllocError>
    ensures { IfOk result (λ t. t ≡ base_of target.now) }
{
    let path = target.get("__metrics_path__");
    let mut base = String::from_str(alloc, target.get("__scheme__"))?;
    base.push_str("://")?;
    base.push_str(target.get("__address__"))?;
    base.push_str(slash_before(path))?;
    base.push_str(path)?;
    Ok(Text::from_string(base))
}

/// The slash that a path lacks in front, where it is not empty.
fn slash_before(path: &str) -> &'static str
    ensures { result.now ≡ slash_before path.now }
{
    match path.as_bytes() {
        [] => "",
        [b'/', ..] => "",
        _ => "/",
    }
}

/// The parameters that labels say.
fn parameters_of(alloc: Global, labels: &[(LabelName, Text)]) -> Result<List<Parameter>, AllocError>
    ensures { IfOk result (λ l. l ≡ parameters_of labels.now) }
{
    let mut parameters = List::new(alloc);
    for (name, value) in labels {
        let parameter = parameter_of(alloc, name.as_str(), value.as_str())?;
        add(&mut parameters, parameter)?;
    }
    Ok(parameters)
}

/// Adds a parameter, where there is one.
fn add(parameters: &mut List<Parameter>, parameter: Option<Parameter>) -> Result<(), AllocError>
    ensures { OnOk result (parameters.new ≡ parameters.old ++ cons_option parameter []) }
{
    if let Some(parameter) = parameter {
        parameters.push(parameter)?;
    }
    Ok(())
}

/// The parameter that a label says, where it says one.
fn parameter_of(alloc: Global, name: &str, value: &str) -> Result<Option<Parameter>, AllocError>
    ensures { IfOk result (λ p. p ≡ parameter_of name.now value.now) }
{
    if !name.as_bytes().starts_with(b"__param_") {
        return Ok(None);
    }
    Ok(Some(Parameter {
        name: Text::from_str(alloc, name)?,
        value: Text::from_str(alloc, value)?,
    }))
}
