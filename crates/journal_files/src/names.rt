//! The names that collectors have or had, as a journal tells them, so that who had one is told to let go after another start, too.
use allocation_core::Core;
use fleet_events::CollectorId;
use json_values::{number, parse, text_of};
use lists::Text;
use sealed_lines::first_line;
use serde_json::{Map, Value, put};
use std::alloc::{AllocError, Global};
use std::str::from_utf8;

/// The member of a journal's first line that has them.
const NAMES: &str = "names";

/// What stands before the names.
const BEFORE: &[u8] = b",\"names\":";

/// What the line of a collector that joins has.
const JOIN: &str = "\"event\":\"join\"";

/// A name, and the last number under which a collector had it.
pub type NamedCollector = (Text, CollectorId);

/// A first line with these names as its last member.
pub fn with_names(
    alloc: Global,
    line: &[u8],
    names: &[NamedCollector],
) -> Result<Vec<u8>, AllocError> {
    let member = text_of(alloc, &value_of(alloc, names)?)?;
    let mut text = Vec::new(alloc);
    text.extend_from_slice(&line[..line.len().saturating_sub(1)])?;
    text.extend_from_slice(BEFORE)?;
    text.extend_from_slice(member.as_str().as_bytes())?;
    text.push(b'}')?;
    Ok(text)
}

/// An object from each name to its number.
fn value_of(alloc: Global, names: &[NamedCollector]) -> Result<Value, AllocError> {
    let mut members = Map::new(alloc);
    for (name, id) in names {
        put(&mut members, alloc, name.as_str(), Value::from(*id))?;
    }
    Ok(Value::Object(members))
}

/// The names that the lines of a journal tell, which lead to this allocator. A journal of an earlier version tells none, since it may have lines
/// of joins that were refused, and so does one that was sealed by hand.
pub(crate) fn names_in(
    alloc: Global,
    lines: &[u8],
    core: &Core,
) -> Result<Vec<NamedCollector>, AllocError> {
    let (line, others) = first_line(lines);
    match parse(alloc, line)? {
        Some(first) if first.get("epoch").is_some() && first.get("sealed").is_none() => {
            named_behind(alloc, &first, others.unwrap_or(&[]), core)
        }
        _ => Ok(Vec::new(alloc)),
    }
}

/// The names of a first line and of the joins behind it.
fn named_behind(
    alloc: Global,
    first: &Value,
    others: &[u8],
    core: &Core,
) -> Result<Vec<NamedCollector>, AllocError> {
    let mut names = Vec::new(alloc);
    add_first(alloc, &mut names, first)?;
    let before = last_number(first);
    add_joins(alloc, &mut names, others, before)?;
    if are_told(names.as_slice(), core, before) {
        Ok(names)
    } else {
        Ok(Vec::new(alloc))
    }
}

fn add_first(
    alloc: Global,
    names: &mut Vec<NamedCollector>,
    first: &Value,
) -> Result<(), AllocError> {
    let Some(members) = first.get(NAMES).and_then(Value::as_object) else {
        return Ok(());
    };
    for (name, id) in members.iter() {
        if let Some(id) = number(id) {
            names.push((Text::from_str(alloc, name.as_str())?, id))?;
        }
    }
    Ok(())
}

/// The number of the collector that joined last before a first line.
fn last_number(first: &Value) -> CollectorId {
    let fleet = first
        .get("history")
        .and_then(|history| history.get("fleet"));
    match fleet.and_then(|fleet| fleet.get("last_collector")) {
        Some(last) => number(last).unwrap_or(0),
        None => 0,
    }
}

/// Adds who joined, in order: each has the next number.
fn add_joins(
    alloc: Global,
    names: &mut Vec<NamedCollector>,
    others: &[u8],
    before: CollectorId,
) -> Result<(), AllocError> {
    let mut last = before;
    let Ok(others) = from_utf8(others) else {
        return Ok(());
    };
    for line in others.lines() {
        if let Some(name) = joined(alloc, line)? {
            last = last.saturating_add(1);
            names.push((name, last))?;
        }
    }
    Ok(())
}

/// The name of the collector that joins by a line, if one does.
fn joined(alloc: Global, line: &str) -> Result<Option<Text>, AllocError> {
    if !line.contains(JOIN) {
        return Ok(None);
    }
    match parse(alloc, line.as_bytes())? {
        Some(event) => name_in(alloc, &event),
        None => Ok(None),
    }
}

fn name_in(alloc: Global, event: &Value) -> Result<Option<Text>, AllocError> {
    if event.get("event").and_then(Value::as_str) != Some("join") {
        return Ok(None);
    }
    match event.get("name").and_then(Value::as_str) {
        Some(name) => Ok(Some(Text::from_str(alloc, name)?)),
        None => Ok(None),
    }
}

/// Whether each live collector that joined behind the first line has its name among these.
fn are_told(names: &[NamedCollector], core: &Core, before: CollectorId) -> bool {
    for collector in core.fleet().collectors() {
        let name = collector.name.as_str();
        if collector.id > before && !has(names, name, collector.id) {
            return false;
        }
    }
    true
}

fn has(names: &[NamedCollector], name: &str, id: CollectorId) -> bool {
    names
        .iter()
        .any(|(known, number)| *number == id && known.as_str() == name)
}
