//! Why a pattern is refused.
use logfmt::Quoted;
use regex_syntax::{Config, Error, ErrorKind, parse};
use std::alloc::{AllocError, Global};

/// The longest pattern that is shown, in bytes.
const LONGEST_SHOWN: usize = 256;

/// Why a pattern is refused: what the grammar says of it, by itself and as it is used, or that it is too big.
pub(crate) fn pattern_fault(alloc: Global, pattern: &str) -> Result<String, AllocError> {
    match refusal(alloc, pattern)? {
        Some(error) => placed(alloc, pattern, &error),
        None => anchored_fault(alloc, pattern),
    }
}

/// What the grammar says of a text, where it does not read it.
fn refusal(alloc: Global, text: &str) -> Result<Option<Error>, AllocError> {
    match parse(alloc, text, &Config::default()) {
        Ok(_) => Ok(None),
        Err(error) => match error.kind {
            ErrorKind::OutOfMemory => Err(AllocError),
            _ => Ok(Some(error)),
        },
    }
}

/// What is wrong with a pattern that reads by itself.
fn anchored_fault(alloc: Global, pattern: &str) -> Result<String, AllocError> {
    let whole = format!(in alloc; "^(?:{pattern})$")?;
    match refusal(alloc, whole.as_str())? {
        Some(error) => {
            let why = error.kind.message();
            format!(in alloc; "between ^(?: and )$: {why}")
        }
        None => String::from_str(alloc, "it is too big once it is compiled"),
    }
}

fn placed(alloc: Global, pattern: &str, error: &Error) -> Result<String, AllocError> {
    let why = error.kind.message();
    let byte = error.span.start.saturating_add(1);
    if pattern.len() > LONGEST_SHOWN {
        return format!(in alloc; "{why}, at byte {byte}");
    }
    let pattern = Quoted(pattern);
    format!(in alloc; "{why}, at byte {byte} of {pattern}")
}
