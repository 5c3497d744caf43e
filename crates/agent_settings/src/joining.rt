//! What a collector joins with.
use crate::error::{Member, SettingsError};
use crate::members::{Kind, known_or_none};
use crate::reading::json_in;
use json_values::text_of;
use lists::Text;
use serde_json::{Map, Value};
use service_settings::member_of;
use std::alloc::{AllocError, Global};

/// The body with which an agent's collector of a name joins, where the document says that it joins by itself.
pub fn join_text(alloc: Global, name: &str, bytes: &[u8]) -> Result<Option<Text>, SettingsError> {
    let document = json_in(alloc, bytes)?;
    let found = document.get("join");
    match known_or_none(alloc, Kind::Join, found)? {
        Some(join) => Ok(Some(body_of(alloc, name, join)?)),
        None => Ok(None),
    }
}

fn body_of(alloc: Global, name: &str, join: &Value) -> Result<Text, SettingsError> {
    let (reach, limits) = parts_in(join)?;
    Ok(written(alloc, name, reach, limits)?)
}

/// The rules and the limits with which it joins.
fn parts_in(join: &Value) -> Result<(Option<&Value>, Option<&Value>), SettingsError> {
    let reach = member_of(Some(join), "reach");
    let limits = member_of(Some(join), "limits");
    match (reach, limits) {
        (Some(reach), _) if !reach.is_array() => Err(SettingsError::Shape(Member::Reach)),
        (None, _) => Err(SettingsError::Shape(Member::Reach)),
        (_, Some(limits)) if !limits.is_object() => Err(SettingsError::Shape(Member::Limits)),
        (reach, limits) => Ok((reach, limits)),
    }
}

fn written(
    alloc: Global,
    name: &str,
    reach: Option<&Value>,
    limits: Option<&Value>,
) -> Result<Text, AllocError> {
    let mut body = Map::new(alloc);
    if let Some(limits) = limits {
        body.insert(String::from_str(alloc, "limits")?, limits.clone()?)?;
    }
    body.insert(
        String::from_str(alloc, "name")?,
        Value::String(String::from_str(alloc, name)?),
    )?;
    if let Some(reach) = reach {
        body.insert(String::from_str(alloc, "reach")?, reach.clone()?)?;
    }
    text_of(alloc, &Value::Object(body))
}
