//! Scraped bodies, media types, URLs, and lists of groups that are written.
use crate::answers::READ;
use crate::values::NONE;
use http_get::get_of_url;
use json_values::parse;
use scrape_books::count_samples;
use sd_documents::{is_json_media, write_groups};
use serde_json::Value;
use std::alloc::{AllocError, Global};

/// The samples of a scraped body.
pub(crate) fn samples(alloc: Global, bytes: &[u8]) -> Result<String, AllocError> {
    let count = count_samples(bytes);
    format!(in alloc; "{READ} {count}")
}

/// Whether a media type is that of JSON.
pub(crate) fn media(alloc: Global, text: &str) -> Result<String, AllocError> {
    let is_json = is_json_media(text);
    format!(in alloc; "{is_json}")
}

/// A source's URL: how it is asked.
pub(crate) fn url(alloc: Global, text: &str) -> Result<String, AllocError> {
    match get_of_url(alloc, text) {
        Ok(get) => {
            let line = format!(in alloc; "{READ} {}", get.path.as_str());
            drop(get);
            line
        }
        Err(error) => Err(error),
    }
}

/// The texts of groups: the list of them.
pub(crate) fn written_groups(alloc: Global, text: &str) -> Result<String, AllocError> {
    match parse(alloc, text.as_bytes())? {
        Some(Value::Array(values)) => {
            let line = written(alloc, values.as_slice());
            drop(values);
            line
        }
        other => {
            drop(other);
            String::from_str(alloc, NONE)
        }
    }
}

fn written(alloc: Global, values: &[Value]) -> Result<String, AllocError> {
    let mut texts = Vec::new(alloc);
    for value in values {
        texts.push(value.as_str().unwrap_or(""))?;
    }
    list_of(alloc, texts.as_slice())
}

fn list_of(alloc: Global, texts: &[&str]) -> Result<String, AllocError> {
    match String::from_utf8(write_groups(alloc, texts)?) {
        Ok(text) => Ok(text),
        Err(_) => String::from_str(alloc, "no text"),
    }
}
