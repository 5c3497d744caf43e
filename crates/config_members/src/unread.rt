//! The members of a configuration that are not read here.
ghost use Rattle.std.specs.Prelude.{◌≡◌, ◌++◌, [], IfOk, OnOk, option_map};
ghost use Rattle.serde_json.specs.View.{view, items_view, members_view};
ghost use Rattle.config_members.specs.Unread.{standing_of, unread_of, unread_at, unread_in_global, entry_items, each_entry, unread_in_part, unread_in_job, each_job, unread_in};

use crate::place::{Part, Place};
use crate::unknown::is_among;
use lists::{List, Text};
use serde_json::{Map, Value};
use std::alloc::{AllocError, Global};

/// A member that is not read here.
#[derive(Debug, Drop)]
pub struct Unread {
    pub place: Place,
    pub name: Text,
    pub standing: Standing,
}

/// Why a member is not read here.
#[derive(Clone, Copy, Debug, PartialEq, Eq)]
pub enum Standing {
    /// Neither is it read here, nor does Prometheus have it.
    Unknown,
    /// Prometheus has it.
    NotFollowed,
}

/// The members of a document that are not read here, in this order: those of the document, of `global`, and of each job in turn; of a
/// job its own, then those of its static groups, of its sources over HTTP, of its sources of files and of its rules. Of an object they come
/// in byte order. What is of another shape has none; `allocator` is not looked at.
pub fn unread_members(alloc: Global, document: &Value) -> Result<List<Unread>, AllocError>
    ensures { IfOk result (λ l. l ≡ unread_in (view document.now)) }
{
    let mut found = List::new(alloc);
    add_members(alloc, &mut found, Place::Document, document)?;
    if let Some(global) = document.get("global") {
        add_members(alloc, &mut found, Place::Global, global)?;
    }
    add_jobs(alloc, &mut found, items_of(document.get("scrape_configs")))?;
    Ok(found)
}

/// The items of a list.
fn items_of(found: Option<&Value>) -> &[Value]
    ensures { items_view result.now ≡ entry_items (option_map (λ v. view v.now) found.entry) }
{
    match found.and_then(Value::as_array) {
        Some(items) => items.as_slice(),
        None => &[],
    }
}

fn add_jobs(alloc: Global, found: &mut List<Unread>, jobs: &[Value]) -> Result<(), AllocError>
    ensures { OnOk result (found.new ≡ found.old ++ each_job 0 (items_view jobs.now)) }
{
    for (job, value) in jobs.iter().enumerate() {
        add_job(alloc, found, job, value)?;
    }
    Ok(())
}

fn add_job(
    alloc: Global,
    found: &mut List<Unread>,
    job: usize,
    value: &Value,
) -> Result<(), AllocError>
    ensures { OnOk result (found.new ≡ found.old ++ unread_in_job job (view value.now)) }
{
    add_members(alloc, found, Place::Job(job), value)?;
    add_part(alloc, found, job, Part::StaticConfigs, value)?;
    add_part(alloc, found, job, Part::HttpSdConfigs, value)?;
    add_part(alloc, found, job, Part::FileSdConfigs, value)?;
    add_part(alloc, found, job, Part::RelabelConfigs, value)
}

/// The members of the entries of a list of a job.
fn add_part(
    alloc: Global,
    found: &mut List<Unread>,
    job: usize,
    part: Part,
    value: &Value,
) -> Result<(), AllocError>
    ensures { OnOk result (found.new ≡ found.old ++ unread_in_part job part (view value.now)) }
{
    let entries = items_of(value.get(part.name()));
    for (entry, value) in entries.iter().enumerate() {
        add_members(alloc, found, Place::Entry(job, part, entry), value)?;
    }
    Ok(())
}

fn add_members(
    alloc: Global,
    found: &mut List<Unread>,
    place: Place,
    value: &Value,
) -> Result<(), AllocError>
    ensures { OnOk result (found.new ≡ found.old ++ unread_at place (view value.now)) }
{
    match value.as_object() {
        Some(members) => add_each(alloc, found, place, members),
        None => Ok(()),
    }
}

fn add_each(
    alloc: Global,
    found: &mut List<Unread>,
    place: Place,
    members: &Map<String, Value>,
) -> Result<(), AllocError>
    ensures { OnOk result (found.new ≡ found.old ++ unread_of place (members_view members.now.entries)) }
{
    for (name, _value) in members.iter() {
        add_name(alloc, found, place, name.as_str())?;
    }
    Ok(())
}

fn add_name(
    alloc: Global,
    found: &mut List<Unread>,
    place: Place,
    name: &str,
) -> Result<(), AllocError>
    ensures { OnOk result (found.new ≡ found.old ++ standing_of place name.now) }
{
    if is_among(place.names_read(), name) {
        return Ok(());
    }
    let standing = if is_among(place.other_names(), name) {
        Standing::NotFollowed
    } else {
        Standing::Unknown
    };
    let name = Text::from_str(alloc, name)?;
    found.push(Unread {
        place,
        name,
        standing,
    })
}
