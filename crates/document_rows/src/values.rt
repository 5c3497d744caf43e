//! Values that are read, and written again.
use json_values::{FromJson, Spelled, array_of, member, parse, text_of};
use lists::{List, Text};
use serde_json::Value;
use std::alloc::{AllocError, Global};

/// What stands where nothing is read.
pub(crate) const NONE: &str = "none";

/// The pairs of the member `pairs`.
pub(crate) fn pairs(alloc: Global, text: &str) -> Result<String, AllocError> {
    match parse(alloc, text.as_bytes())? {
        Some(value) => {
            let line = written_pairs(alloc, &value);
            drop(value);
            line
        }
        None => String::from_str(alloc, NONE),
    }
}

fn written_pairs(alloc: Global, value: &Value) -> Result<String, AllocError> {
    let found: Option<List<(u32, u32)>> = member(alloc, value, "pairs")?;
    let line = written(alloc, &found);
    drop(found);
    line
}

/// A list of texts.
pub(crate) fn texts(alloc: Global, text: &str) -> Result<String, AllocError> {
    match parse(alloc, text.as_bytes())? {
        Some(value) => {
            let line = written_texts(alloc, &value);
            drop(value);
            line
        }
        None => String::from_str(alloc, NONE),
    }
}

fn written_texts(alloc: Global, value: &Value) -> Result<String, AllocError> {
    let found: Option<List<Text>> = FromJson::read(alloc, value)?;
    let line = written(alloc, &found);
    drop(found);
    line
}

/// A list that was read, as JSON.
fn written<T: Spelled + Drop>(
    alloc: Global,
    found: &Option<List<T>>,
) -> Result<String, AllocError> {
    match found {
        Some(list) => json_in(alloc, array_of(alloc, list.as_slice())),
        None => String::from_str(alloc, NONE),
    }
}

/// A text of JSON in its compact form.
pub(crate) fn compact(alloc: Global, text: &str) -> Result<String, AllocError> {
    match parse(alloc, text.as_bytes())? {
        Some(value) => {
            let line = json_of(alloc, &value);
            drop(value);
            line
        }
        None => String::from_str(alloc, NONE),
    }
}

pub(crate) fn json_of(alloc: Global, value: &Value) -> Result<String, AllocError> {
    Ok(text_of(alloc, value)?.into_string())
}

/// The same of a value that was written.
pub(crate) fn json_in(
    alloc: Global,
    value: Result<Value, AllocError>,
) -> Result<String, AllocError> {
    match value {
        Ok(value) => {
            let json = json_of(alloc, &value);
            drop(value);
            json
        }
        Err(error) => Err(error),
    }
}

/// The texts of a JSON list, one behind the other. A pair of a number and a text stands for so many copies, with commas between them.
pub(crate) fn spelled_out(alloc: Global, text: &str) -> Result<Option<String>, AllocError> {
    match parse(alloc, text.as_bytes())? {
        Some(Value::Array(parts)) => {
            let all = joined(alloc, parts.as_slice());
            drop(parts);
            Ok(Some(all?))
        }
        other => {
            drop(other);
            Ok(None)
        }
    }
}

fn joined(alloc: Global, parts: &[Value]) -> Result<String, AllocError> {
    let mut all = String::new(alloc);
    for part in parts {
        add_part(&mut all, part)?;
    }
    Ok(all)
}

fn add_part(all: &mut String, part: &Value) -> Result<(), AllocError> {
    match part.as_str() {
        Some(text) => all.push_str(text),
        None => add_copies(
            all,
            number_at(part, 0).unwrap_or(0),
            text_at(part, 1).unwrap_or(""),
        ),
    }
}

fn add_copies(all: &mut String, count: u64, text: &str) -> Result<(), AllocError> {
    for i in 0..count {
        if i > 0 {
            all.push_str(",")?;
        }
        all.push_str(text)?;
    }
    Ok(())
}

/// The text at a place of a list.
pub(crate) fn text_at(list: &Value, place: usize) -> Option<&str> {
    list.as_array()?.as_slice().get(place)?.as_str()
}

/// The number at a place of a list.
pub(crate) fn number_at(list: &Value, place: usize) -> Option<u64> {
    list.as_array()?.as_slice().get(place)?.as_u64()
}
