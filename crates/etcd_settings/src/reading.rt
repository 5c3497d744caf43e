//! What members of a document say, or why they are refused.
ghost use Rattle.std.specs.Prelude.{◌≡◌, option_map};
ghost use Rattle.std.specs.List.{list_all};
ghost use Rattle.serde_json.specs.View.{view};
ghost use Rattle.etcd_settings.specs.Reading.{Gives, filled_in as filled_in_data, json_said, lease_in as lease_in_data, lease_said, text_said, within_a_lease as within_lease};
ghost use Rattle.etcd_settings.specs.Urls.{is_url as is_url_text, is_url_byte as is_url_code, url_in as url_in_data, url_said};

use crate::error::{Member, SettingsError};
use crate::place::is_filled;
use crate::settings::{LONGEST_LEASE, SHORTEST_LEASE};
use json_values::parse;
use lists::Text;
use serde_json::Value;
use service_settings::duration_of;
use std::alloc::Global;

/// The value of a JSON text.
pub(crate) fn json_in(alloc: Global, bytes: &[u8]) -> Result<Value, SettingsError>
    ensures { Gives view result (json_said bytes.now) }
{
    parse(alloc, bytes)?.ok_or(SettingsError::NotJson)
}

/// A text that is not empty, or nothing.
pub(crate) fn text_or_none(
    alloc: Global,
    member: Member,
    found: Option<&Value>,
) -> Result<Option<Text>, SettingsError>
    ensures { Gives (λ o. o) result (text_said member (option_map (λ v. view v.now) found.entry)) }
{
    let Some(value) = found else {
        return Ok(None);
    };
    match filled_in(value) {
        Some(text) => Ok(Some(Text::from_str(alloc, text)?)),
        None => Err(SettingsError::Shape(member)),
    }
}

/// The URL of an instance, or nothing.
pub(crate) fn url_or_none(
    alloc: Global,
    found: Option<&Value>,
) -> Result<Option<Text>, SettingsError>
    ensures { Gives (λ o. o) result (url_said (option_map (λ v. view v.now) found.entry)) }
{
    let Some(value) = found else {
        return Ok(None);
    };
    match url_in(value) {
        Some(text) => Ok(Some(Text::from_str(alloc, text)?)),
        None => Err(SettingsError::Shape(Member::Advertise)),
    }
}

/// How long a lease is, in milliseconds, or nothing.
pub(crate) fn lease_or_none(found: Option<&Value>) -> Result<Option<u64>, SettingsError>
    ensures { Gives (λ o. o) result (lease_said (option_map (λ v. view v.now) found.entry)) }
{
    let Some(value) = found else {
        return Ok(None);
    };
    let lease = lease_in(value).ok_or(SettingsError::Shape(Member::Lease))?;
    Ok(Some(lease))
}

fn filled_in(value: &Value) -> Option<&str>
    ensures { option_map (λ s. s.now) result ≡ filled_in_data (view value.now) }
{
    let text = value.as_str()?;
    if is_filled(text) { Some(text) } else { None }
}

fn url_in(value: &Value) -> Option<&str>
    ensures { option_map (λ s. s.now) result ≡ url_in_data (view value.now) }
{
    let text = value.as_str()?;
    if is_url(text.as_bytes()) {
        Some(text)
    } else {
        None
    }
}

/// Whether it is a URL of HTTP that another path may stand behind.
fn is_url(text: &[u8]) -> bool
    ensures { result ≡ is_url_text text.now }
{
    (text.starts_with(b"http://") || text.starts_with(b"https://"))
        && !text.ends_with(b"/")
        && are_url_bytes(text)
}

fn are_url_bytes(text: &[u8]) -> bool
    ensures { result ≡ list_all is_url_code text.now }
{
    for byte in text {
        if !is_url_byte(*byte) {
            return false;
        }
    }
    true
}

fn is_url_byte(byte: u8) -> bool
    ensures { result ≡ is_url_code byte }
{
    (b'a' <= byte && byte <= b'z')
        || (b'A' <= byte && byte <= b'Z')
        || (b'-' <= byte && byte <= b':')
        || byte == b'_'
        || byte == b'~'
        || byte == b'%'
        || byte == b'['
        || byte == b']'
}

fn lease_in(value: &Value) -> Option<u64>
    ensures { result ≡ lease_in_data (view value.now) }
{
    within_a_lease(duration_of(value.as_str()?)?)
}

fn within_a_lease(millis: u64) -> Option<u64>
    ensures { result ≡ within_lease millis }
{
    if SHORTEST_LEASE <= millis && millis <= LONGEST_LEASE {
        Some(millis)
    } else {
        None
    }
}
