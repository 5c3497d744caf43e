//! All that is wrong with a document.
use crate::jobs::tell_jobs;
use crate::limits::tell_limits;
use crate::lines::Lines;
use crate::members::tell_unknown;
use crate::settings::tell_settings;
use crate::unparsed::unparsed;
use serde_json::Value;
use std::alloc::{AllocError, Global};

/// What is wrong with the document of the configuration at a path, a line each, if something is: members that nobody knows, then what is
/// wrong with the jobs, and then with the settings.
pub fn faults_of(alloc: Global, path: &str, document: &[u8]) -> Result<Option<String>, AllocError> {
    let mut lines = Lines::new(alloc, path);
    match Value::from_slice(alloc, document) {
        Ok(value) => tell_document(alloc, &mut lines, document, &value)?,
        Err(error) => tell_unparsed(alloc, &mut lines, document, &error)?,
    }
    Ok(lines.told())
}

fn tell_unparsed(
    alloc: Global,
    lines: &mut Lines<'_>,
    document: &[u8],
    error: &serde_json::Error,
) -> Result<(), AllocError> {
    if error.is_memory() {
        return Err(AllocError);
    }
    let why = unparsed(alloc, document, error)?;
    lines.tell(why.as_str())
}

fn tell_document(
    alloc: Global,
    lines: &mut Lines<'_>,
    document: &[u8],
    value: &Value,
) -> Result<(), AllocError> {
    if !value.is_object() {
        return lines.tell("document: no object");
    }
    tell_unknown(alloc, lines, value)?;
    tell_jobs(alloc, lines, value)?;
    tell_settings(alloc, lines, document, value)?;
    tell_limits(alloc, lines, value)
}
