//! What is no JSON.
use serde_json::Error;
use std::alloc::{AllocError, Global};

/// The byte order mark of UTF-8.
const BYTE_ORDER_MARK: [u8; 3] = [0xEF, 0xBB, 0xBF];

/// Why a document is not read as JSON.
pub(crate) fn unparsed(
    alloc: Global,
    document: &[u8],
    error: &Error,
) -> Result<String, AllocError> {
    if document.starts_with(BYTE_ORDER_MARK.as_slice()) {
        return String::from_str(
            alloc,
            "no JSON: it begins with a byte order mark, and JSON has none",
        );
    }
    match first_of(document) {
        None => String::from_str(alloc, "no JSON: nothing stands in the file"),
        Some(b'{' | b'[') => placed(alloc, error),
        Some(_) => String::from_str(
            alloc,
            "YAML is not read: convert it, see docs/operate/CONFIG.md",
        ),
    }
}

/// The first byte that is no blank.
fn first_of(document: &[u8]) -> Option<u8> {
    for byte in document {
        if !byte.is_ascii_whitespace() {
            return Some(*byte);
        }
    }
    None
}

/// Where the document is no JSON.
fn placed(alloc: Global, error: &Error) -> Result<String, AllocError> {
    let (line, column) = (error.line(), error.column());
    if error.is_eof() {
        return format!(in alloc; "no JSON: line {line}, column {column}: it ends too early");
    }
    format!(in alloc; "no JSON: line {line}, column {column}")
}
