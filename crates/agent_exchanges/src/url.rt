//! The URL at which Prometheus scrapes a target, unescaped.
use agent_core::{Parameter, Url};
use form_urlencoded::parse;
use lists::{List, Text};
use percent_encoding::{DecodeError, percent_decode};
use std::alloc::{AllocError, Global};

/// What stands before the name of a parameter in that of its label.
const PARAMETER: &str = "__param_";

/// The URL that a text writes. What is no UTF-8 before its query is the URL of no target.
pub(crate) fn url_in(alloc: Global, text: &str) -> Result<Url, AllocError> {
    let (base, query) = text.split_once('?').unwrap_or((text, ""));
    let base = unescaped(alloc, base)?;
    let parameters = parameters_in(alloc, query)?;
    Ok(Url { base, parameters })
}

fn unescaped(alloc: Global, text: &str) -> Result<Text, AllocError> {
    match percent_decode(text.as_bytes()).decode_utf8(alloc) {
        Ok(text) => Ok(Text::from_string(text.into_owned(alloc)?)),
        Err(DecodeError::OutOfMemory) => Err(AllocError),
        Err(DecodeError::Utf8(_)) => Text::from_str(alloc, ""),
    }
}

fn parameters_in(alloc: Global, query: &str) -> Result<List<Parameter>, AllocError> {
    let mut parameters = List::new(alloc);
    for pair in parse(alloc, query.as_bytes()) {
        let (name, value) = pair?;
        let parameter = parameter_of(alloc, name.as_str(), value.as_str())?;
        parameters.push(parameter)?;
    }
    Ok(parameters)
}

/// A parameter by the name of its label.
fn parameter_of(alloc: Global, name: &str, value: &str) -> Result<Parameter, AllocError> {
    let label = format!(in alloc; "{PARAMETER}{name}")?;
    let value = Text::from_str(alloc, value)?;
    Ok(Parameter {
        name: Text::from_string(label),
        value,
    })
}
