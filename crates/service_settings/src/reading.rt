//! What members of a document say, or why they are refused.
ghost use Rattle.std.specs.Prelude.{◌≡◌, IfOk, option_map};
ghost use Rattle.serde_json.specs.Find.{as_str, as_bool};
ghost use Rattle.serde_json.specs.View.{view, items_view};
ghost use Rattle.json_values.specs.Spelling.{number_in};
ghost use Rattle.service_settings.specs.Reading.{Gives, json_said, member_at, duration_in, time_in, is_never as is_never_said, address_in, connections_in, enough as enough_connections, report_rounds_in, some_rounds as some_rounds_of, said_or, said_or_none, object_said, items_said};

use crate::address::{Address, address_of};
use crate::duration::duration_of;
use crate::error::{Member, SettingsError};
use json_values::{number, parse};
use lists::Text;
use serde_json::Value;
use std::alloc::Global;

/// How many connections there may be at once, at the least and at the most.
pub const LEAST_CONNECTIONS: u32 = 64;

pub const MOST_CONNECTIONS: u32 = 65_535;

/// The most rounds of which a report is booked.
pub const MOST_REPORT_ROUNDS: u32 = 64;

/// The value of a JSON text.
pub(crate) fn json_in(alloc: Global, bytes: &[u8]) -> Result<Value, SettingsError>
    ensures { Gives view result (json_said bytes.now) }
{
    parse(alloc, bytes)?.ok_or(SettingsError::NotJson)
}

/// The member of a name, where what it is a member of is there.
pub fn member_of<'a>(found: Option<&'a Value>, name: &str) -> Option<&'a Value>
    ensures { option_map (λ v. view v.now) result ≡ member_at name.now (option_map (λ v. view v.now) found.entry) }
{
    found?.get(name)
}

/// An object.
pub(crate) fn object_or_none(
    member: Member,
    found: Option<&Value>,
) -> Result<Option<&Value>, SettingsError>
    ensures { Gives (λ o. option_map (λ v. view v.now) o) result (object_said member (option_map (λ v. view v.now) found.entry)) }
{
    match found {
        Some(value) if !value.is_object() => Err(SettingsError::Shape(member)),
        _ => Ok(found),
    }
}

/// The items of a list.
pub(crate) fn items_in(member: Member, found: Option<&Value>) -> Result<&[Value], SettingsError>
    ensures { Gives (λ s. items_view s.now) result (items_said member (option_map (λ v. view v.now) found.entry)) }
{
    let Some(value) = found else {
        return Ok(&[]);
    };
    let items = value.as_array().ok_or(SettingsError::Shape(member))?;
    Ok(items.as_slice())
}

/// A duration in milliseconds.
pub(crate) fn duration_or(
    absent: u64,
    member: Member,
    found: Option<&Value>,
) -> Result<u64, SettingsError>
    ensures { Gives (λ n. n) result (said_or absent duration_in member (option_map (λ v. view v.now) found.entry)) }
{
    match found {
        Some(value) => duration(value).ok_or(SettingsError::Shape(member)),
        None => Ok(absent),
    }
}

/// A duration above 0, in milliseconds.
pub(crate) fn time_or(
    absent: u64,
    member: Member,
    found: Option<&Value>,
) -> Result<u64, SettingsError>
    ensures { Gives (λ n. n) result (said_or absent time_in member (option_map (λ v. view v.now) found.entry)) }
{
    match found {
        Some(value) => time(value).ok_or(SettingsError::Shape(member)),
        None => Ok(absent),
    }
}

pub(crate) fn address_or(
    absent: Address,
    member: Member,
    found: Option<&Value>,
) -> Result<Address, SettingsError>
    ensures { Gives (λ a. a) result (said_or absent address_in member (option_map (λ v. view v.now) found.entry)) }
{
    match found {
        Some(value) => address(value).ok_or(SettingsError::Shape(member)),
        None => Ok(absent),
    }
}

pub(crate) fn flag_or(
    absent: bool,
    member: Member,
    found: Option<&Value>,
) -> Result<bool, SettingsError>
    ensures { Gives (λ b. b) result (said_or absent as_bool member (option_map (λ v. view v.now) found.entry)) }
{
    match found {
        Some(value) => value.as_bool().ok_or(SettingsError::Shape(member)),
        None => Ok(absent),
    }
}

pub(crate) fn text_or_none(
    alloc: Global,
    member: Member,
    found: Option<&Value>,
) -> Result<Option<Text>, SettingsError>
    ensures { Gives (λ o. o) result (said_or_none as_str member (option_map (λ v. view v.now) found.entry)) }
{
    let Some(value) = found else {
        return Ok(None);
    };
    let text = value.as_str().ok_or(SettingsError::Shape(member))?;
    let text = Text::from_str(alloc, text)?;
    Ok(Some(text))
}

pub(crate) fn number_or(
    absent: u32,
    member: Member,
    found: Option<&Value>,
) -> Result<u32, SettingsError>
    ensures { Gives (λ n. n) result (said_or absent number_in member (option_map (λ v. view v.now) found.entry)) }
{
    match found {
        Some(value) => number(value).ok_or(SettingsError::Shape(member)),
        None => Ok(absent),
    }
}

/// How many connections there may be at once.
pub(crate) fn connections_or(
    absent: u32,
    member: Member,
    found: Option<&Value>,
) -> Result<u32, SettingsError>
    ensures { Gives (λ n. n) result (said_or absent connections_in member (option_map (λ v. view v.now) found.entry)) }
{
    match found {
        Some(value) => connections(value).ok_or(SettingsError::Shape(member)),
        None => Ok(absent),
    }
}

fn connections(value: &Value) -> Option<u32>
    ensures { result ≡ connections_in (view value.now) }
{
    enough(number(value)?)
}

fn enough(number: u32) -> Option<u32>
    ensures { result ≡ enough_connections number }
{
    if LEAST_CONNECTIONS <= number && number <= MOST_CONNECTIONS {
        Some(number)
    } else {
        None
    }
}

/// Of how many of the last rounds a report is booked.
pub(crate) fn report_rounds_or(
    absent: u32,
    member: Member,
    found: Option<&Value>,
) -> Result<u32, SettingsError>
    ensures { Gives (λ n. n) result (said_or absent report_rounds_in member (option_map (λ v. view v.now) found.entry)) }
{
    match found {
        Some(value) => report_rounds(value).ok_or(SettingsError::Shape(member)),
        None => Ok(absent),
    }
}

fn report_rounds(value: &Value) -> Option<u32>
    ensures { result ≡ report_rounds_in (view value.now) }
{
    some_rounds(number(value)?)
}

fn some_rounds(number: u32) -> Option<u32>
    ensures { result ≡ some_rounds_of number }
{
    if 1 <= number && number <= MOST_REPORT_ROUNDS {
        Some(number)
    } else {
        None
    }
}

fn duration(value: &Value) -> Option<u64>
    ensures { result ≡ duration_in (view value.now) }
{
    duration_of(value.as_str()?)
}

/// A duration above 0, in milliseconds.
pub(crate) fn time(value: &Value) -> Option<u64>
    ensures { result ≡ time_in (view value.now) }
{
    let time = duration(value)?;
    if time > 0 { Some(time) } else { None }
}

/// Whether the value is the text `never`.
pub(crate) fn is_never(value: &Value) -> bool
    ensures { result ≡ is_never_said (view value.now) }
{
    match value.as_str() {
        Some(text) => text == "never",
        None => false,
    }
}

fn address(value: &Value) -> Option<Address>
    ensures { result ≡ address_in (view value.now) }
{
    address_of(value.as_str()?)
}
