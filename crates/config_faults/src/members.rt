//! Members that are not read here.
use crate::lines::Lines;
use config_members::{Standing, Unread, nearest, unread_members};
use lists::List;
use logfmt::Quoted;
use serde_json::Value;
use std::alloc::{AllocError, Global};

/// How many unknown members are told at most.
const MOST_UNKNOWN: usize = 16;
/// The longest name that is shown as it is, in bytes.
const LONGEST_SHOWN: usize = 256;

/// The ways to the members of a document that Prometheus has and that are not followed here. There are none where it is no JSON.
pub fn not_followed(alloc: Global, document: &[u8]) -> Result<Vec<String>, AllocError> {
    match json_values::parse(alloc, document)? {
        Some(value) => ways_in(alloc, &value),
        None => Ok(Vec::new(alloc)),
    }
}

fn ways_in(alloc: Global, document: &Value) -> Result<Vec<String>, AllocError> {
    let members = unread_members(alloc, document)?;
    let mut ways = Vec::new(alloc);
    for member in members.as_slice() {
        if member.standing == Standing::NotFollowed {
            ways.push(way_of(alloc, member)?)?;
        }
    }
    Ok(ways)
}

/// The way to a member. A name that would not stand in a line, or that is very long, is left out.
fn way_of(alloc: Global, member: &Unread) -> Result<String, AllocError> {
    let name = member.name.as_str();
    if name.len() > LONGEST_SHOWN {
        return member.place.way_to(alloc, "(a very long name)");
    }
    if is_plain(name) {
        return member.place.way_to(alloc, name);
    }
    let name = format!(in alloc; "{}", Quoted(name))?;
    member.place.way_to(alloc, name.as_str())
}

fn is_plain(name: &str) -> bool {
    !name.is_empty() && name.bytes().all(|byte| byte.is_ascii_graphic())
}

/// Tells the members that nobody knows.
pub(crate) fn tell_unknown(
    alloc: Global,
    lines: &mut Lines<'_>,
    document: &Value,
) -> Result<(), AllocError> {
    let members: List<Unread> = unread_members(alloc, document)?;
    let mut told: usize = 0;
    for member in members.as_slice() {
        if told == MOST_UNKNOWN {
            break;
        }
        if member.standing == Standing::Unknown {
            tell_member(alloc, lines, member)?;
            told = told.saturating_add(1);
        }
    }
    Ok(())
}

fn tell_member(alloc: Global, lines: &mut Lines<'_>, member: &Unread) -> Result<(), AllocError> {
    let line = line_of(alloc, member)?;
    lines.tell(line.as_str())
}

fn line_of(alloc: Global, member: &Unread) -> Result<String, AllocError> {
    let way = way_of(alloc, member)?;
    let way = way.as_str();
    match nearest(alloc, member.place, member.name.as_str())? {
        Some(name) => format!(in alloc; "{way}: unknown member; is {name} meant?"),
        None => format!(in alloc; "{way}: unknown member"),
    }
}
