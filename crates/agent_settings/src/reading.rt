//! What members of a document say, or why they are refused.
ghost use Rattle.std.specs.Prelude.{◌≡◌, option_map};
ghost use Rattle.serde_json.specs.View.{view};
ghost use Rattle.agent_settings.specs.Reading.{Gives, above_zero, filled, filled_in, is_loop, json_said, lease_said, listen_said, loopback, loopback_in, path_said, text_said, time_in, url_in, url_said, url_text};

use crate::error::{Member, SettingsError};
use json_values::parse;
use lists::Text;
use serde_json::Value;
use service_settings::{Address, address_of, duration_of};
use std::alloc::Global;

/// The value of a JSON text.
pub(crate) fn json_in(alloc: Global, bytes: &[u8]) -> Result<Value, SettingsError>
    ensures { Gives view result (json_said bytes.now) }
{
    parse(alloc, bytes)?.ok_or(SettingsError::NotJson)
}

/// A text that is not empty.
pub(crate) fn text_in(
    alloc: Global,
    member: Member,
    found: Option<&Value>,
) -> Result<Text, SettingsError>
    ensures { Gives (λ t. t) result (text_said member (option_map (λ v. view v.now) found.entry)) }
{
    match filled_in(found) {
        Some(text) => Ok(Text::from_str(alloc, text)?),
        None => Err(SettingsError::Shape(member)),
    }
}

/// A URL of HTTP.
pub(crate) fn url_in(
    alloc: Global,
    member: Member,
    found: Option<&Value>,
) -> Result<Text, SettingsError>
    ensures { Gives (λ t. t) result (url_said member (option_map (λ v. view v.now) found.entry)) }
{
    match found_url(found) {
        Some(text) => Ok(Text::from_str(alloc, text)?),
        None => Err(SettingsError::Shape(member)),
    }
}

/// The path of a file, or nothing.
pub(crate) fn path_or_none(
    alloc: Global,
    member: Member,
    found: Option<&Value>,
) -> Result<Option<Text>, SettingsError>
    ensures { Gives (λ o. o) result (path_said member (option_map (λ v. view v.now) found.entry)) }
{
    if found.is_none() {
        return Ok(None);
    }
    let path = text_in(alloc, member, found)?;
    Ok(Some(path))
}

/// An address that only this machine reaches.
pub(crate) fn listen_or(
    absent: Address,
    member: Member,
    found: Option<&Value>,
) -> Result<Address, SettingsError>
    ensures { Gives (λ a. a) result (listen_said absent member (option_map (λ v. view v.now) found.entry)) }
{
    match found {
        Some(value) => loopback_in(value).ok_or(SettingsError::Shape(member)),
        None => Ok(absent),
    }
}

/// A duration above 0, in milliseconds, or nothing.
pub(crate) fn lease_or_none(
    member: Member,
    found: Option<&Value>,
) -> Result<Option<u64>, SettingsError>
    ensures { Gives (λ o. o) result (lease_said member (option_map (λ v. view v.now) found.entry)) }
{
    let Some(value) = found else {
        return Ok(None);
    };
    let time = time(value).ok_or(SettingsError::Shape(member))?;
    Ok(Some(time))
}

fn filled_in(found: Option<&Value>) -> Option<&str>
    ensures { option_map (λ s. s.now) result ≡ filled_in (option_map (λ v. view v.now) found.entry) }
{
    filled(found?.as_str()?)
}

fn filled(text: &str) -> Option<&str>
    ensures { option_map (λ s. s.now) result ≡ filled text.now }
{
    if 0 < text.len() { Some(text) } else { None }
}

fn found_url(found: Option<&Value>) -> Option<&str>
    ensures { option_map (λ s. s.now) result ≡ url_in (option_map (λ v. view v.now) found.entry) }
{
    url_of(found?.as_str()?)
}

fn url_of(text: &str) -> Option<&str>
    ensures { option_map (λ s. s.now) result ≡ url_text text.now }
{
    if text.as_bytes().starts_with(b"http://") && 7 < text.len() {
        Some(text)
    } else {
        None
    }
}

fn loopback_in(value: &Value) -> Option<Address>
    ensures { result ≡ loopback_in (view value.now) }
{
    loopback(address_of(value.as_str()?)?)
}

fn loopback(address: Address) -> Option<Address>
    ensures { result ≡ loopback address }
{
    if is_loop(address.octets.as_slice()) {
        Some(address)
    } else {
        None
    }
}

fn is_loop(octets: &[u8]) -> bool
    ensures { result ≡ is_loop octets.now }
{
    match octets {
        [first, ..] => *first == 127,
        [] => false,
    }
}

fn time(value: &Value) -> Option<u64>
    ensures { result ≡ time_in (view value.now) }
{
    above_zero(duration_of(value.as_str()?)?)
}

fn above_zero(time: u64) -> Option<u64>
    ensures { result ≡ above_zero time }
{
    if time > 0 { Some(time) } else { None }
}
