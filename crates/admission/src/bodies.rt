//! What a head announces of its body.
ghost use Rattle.std.specs.Prelude.{◌≡◌, ◌≤◌, ◌^◌};
ghost use Rattle.std.specs.List.{before_first};
ghost use Rattle.admission.specs.Bodies.{has_body as has_body_of, is_coded_otherwise as is_coded_otherwise_of, expects_other as expects_other_of, is_longer as is_longer_of, is_too_long as is_too_long_of, media_type as media_type_of, is_json as is_json_of};

use crate::sites::same_letters;
use http_header::{CONTENT_LENGTH, CONTENT_TYPE, EXPECT, HeaderMap, TRANSFER_ENCODING};

/// The most bytes of a body.
pub const LONGEST_BODY: u64 = 1_048_576;

/// Whether a head announces a body (RFC 9112, section 6.3).
pub fn has_body(fields: &HeaderMap) -> bool
    ensures { result ≡ has_body_of fields.now }
{
    if fields.get(TRANSFER_ENCODING).is_some() {
        return true;
    }
    match fields.get(CONTENT_LENGTH) {
        Some(length) => length.as_bytes() != b"0".as_slice(),
        None => false,
    }
}

/// Whether the body is in a transfer coding other than `chunked` (RFC 9112, section 6.1).
pub(crate) fn is_coded_otherwise(fields: &HeaderMap) -> bool
    ensures { result ≡ is_coded_otherwise_of fields.now }
{
    for coding in fields.get_all(TRANSFER_ENCODING) {
        if !same_letters(coding.as_bytes(), b"chunked") {
            return true;
        }
    }
    false
}

/// Whether something other than `100-continue` is expected (RFC 9110, section 10.1.1).
pub(crate) fn expects_other(fields: &HeaderMap) -> bool
    ensures { result ≡ expects_other_of fields.now }
{
    for expected in fields.get_all(EXPECT) {
        if !same_letters(expected.as_bytes(), b"100-continue") {
            return true;
        }
    }
    false
}

/// Whether the body is announced to be longer than it may be.
pub(crate) fn is_too_long(fields: &HeaderMap) -> bool
    ensures { result ≡ is_too_long_of fields.now }
{
    match fields.get(CONTENT_LENGTH) {
        Some(length) => is_longer(length.as_bytes()),
        None => false,
    }
}

/// Whether the number that the digits write is greater than the most bytes of a body.
fn is_longer(digits: &[u8]) -> bool
    ensures { result ≡ is_longer_of 0 digits.now }
{
    let mut number: u64 = 0;
    for byte in digits {
        if *byte < b'0' || *byte > b'9' {
            return false;
        }
        number = 10 * number + (*byte - b'0') as u64;
        if number > LONGEST_BODY {
            return true;
        }
    }
    false
}

/// Whether there is no body, or it is told to be JSON (RFC 9110, section 8.3).
pub(crate) fn is_json(fields: &HeaderMap) -> bool
    ensures { result ≡ is_json_of fields.now }
{
    if !has_body(fields) {
        return true;
    }
    match fields.get(CONTENT_TYPE) {
        Some(value) => same_letters(media_type(value.as_bytes()), b"application/json"),
        None => false,
    }
}

/// A media type without its parameters.
fn media_type(value: &[u8]) -> &[u8]
    ensures { result.now ≡ media_type_of value.now }
{
    for (i, byte) in value.iter().enumerate() {
        if *byte == b';' || *byte == b' ' || *byte == b'\t' {
            return &value[..i];
        }
    }
    value
}
