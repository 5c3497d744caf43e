//! How answers are written.
use crate::answers::said_in;
use bytes::Bytes;
use http::{HeaderMap, Response};
use http_body_util::Full;
use sd_routes::{Said, answer};
use std::alloc::{AllocError, Global};

/// What the response has that says this: its status code, each header, and its body as a text in quotes.
pub(crate) fn response(alloc: Global, text: &str) -> Result<String, AllocError> {
    match said_in(alloc, text)? {
        Some(said) => told(alloc, said),
        None => String::from_str(alloc, "nothing to say"),
    }
}

fn told(alloc: Global, said: Said) -> Result<String, AllocError> {
    match answer(alloc, said, false) {
        Ok(response) => {
            let line = outline(alloc, &response);
            drop(response);
            line
        }
        Err(error) => Err(error),
    }
}

fn outline(alloc: Global, response: &Response<Full<Bytes>>) -> Result<String, AllocError> {
    let mut text = format!(in alloc; "{}", response.status().as_u16())?;
    push_headers(&mut text, response.headers())?;
    push_body(alloc, &mut text, response.body())?;
    Ok(text)
}

fn push_headers(text: &mut String, headers: &HeaderMap) -> Result<(), AllocError> {
    for (name, value) in headers.iter() {
        push_header(text, name.as_str(), value.to_str().unwrap_or("no text"))?;
    }
    Ok(())
}

fn push_header(text: &mut String, name: &str, value: &str) -> Result<(), AllocError> {
    text.push_str(" | ")?;
    text.push_str(name)?;
    text.push_str(": ")?;
    text.push_str(value)
}

/// The body as it is written for people, without what stands around it there and before each quote.
fn push_body(alloc: Global, text: &mut String, body: &Full<Bytes>) -> Result<(), AllocError> {
    let told = format!(in alloc; "{body:?}")?;
    let told = told.replace(alloc, "\\\"", "\"")?;
    let told = told.as_str();
    text.push_str(" | ")?;
    text.push_str(
        told.strip_prefix("Full { buf: Some(b\"")
            .unwrap_or(told)
            .strip_suffix("\") }")
            .unwrap_or(told),
    )
}
