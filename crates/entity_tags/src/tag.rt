//! The entity tag of a text.
ghost use Rattle.std.specs.Prelude.{◌≡◌, IfOk, string_bytes};
ghost use Rattle.http_header.specs.FieldValue.{plain_value};
ghost use Rattle.entity_tags.specs.Tags.{quoted, tag_of, Shows};

use http_header::HeaderValue;
use memchr::memmem;
use sha2::{Digest, Sha256};
use std::alloc::{AllocError, Global};

/// The strong entity tag of a text, as the value of the header `etag`: the first 16 bytes of its SHA-256 in lower case hex digits,
/// between quotation marks. Texts that differ have different ones, as far as anybody knows.
pub fn entity_tag(alloc: Global, text: &[u8]) -> Result<HeaderValue, AllocError>
    ensures { IfOk result (λ tag. tag ≡ plain_value (tag_of text.now)) }
{
    let digest: [u8; 32] = Sha256::digest(text);
    let digits = hex::encode(alloc, &digest[..16])?;
    match HeaderValue::from_string(in_quotes(alloc, digits.as_str())?) {
        Ok(tag) => Ok(tag),
        Err(_) => Err(AllocError),
    }
}

fn in_quotes(alloc: Global, digits: &str) -> Result<String, AllocError>
    ensures { IfOk result (λ t. string_bytes t ≡ quoted digits.now) }
{
    let mut tag = String::from_str(alloc, "\"")?;
    tag.push_str(digits)?;
    tag.push_str("\"")?;
    Ok(tag)
}

/// Whether the value of a header `if-none-match` has an entity tag. A tag is in quotation marks and has none in it, so it stands nowhere but
/// where it is meant; that it may be weak does not count (RFC 9110, section 13.1.2).
pub fn is_shown(shown: &HeaderValue, tag: &HeaderValue) -> bool
    ensures { Shows shown.now.bytes tag.now.bytes result }
{
    match memmem::find(shown.as_bytes(), tag.as_bytes()) {
        Some(_) => true,
        None => false,
    }
}
