//! The JSON text of a job.
ghost use Rattle.std.specs.Prelude.{◌≡◌, IfOk, OnOk};
ghost use Rattle.serde_json.specs.Data.{object, no_members};
ghost use Rattle.serde_json.specs.View.{view, items_view, members_view};
ghost use Rattle.serde_json.specs.Written.{compact_text};
ghost use Rattle.json_values.specs.Spelling.{items_data, list_data};
ghost use Rattle.sd_routes.specs.JobPages.{fault_or_null, job_row_data, links_data, source_data};

use crate::collector_row::{held_value, number_or_null};
use crate::link::{job_link, uncovered_link};
use crate::members::{object_of, put_text};
use json_values::text_of;
use lists::{List, Text};
use serde_json::{Map, Value, json, put};
use std::alloc::{AllocError, Global};

/// What is told of a job at a moment.
#[derive(Drop)]
pub struct JobRow {
    pub name: Text,
    /// How many targets are live.
    pub live: u32,
    /// How many of them a live collector holds.
    pub covered: u32,
    /// How many of them nobody holds.
    pub uncovered: u32,
    /// How many of the uncovered ones no collector reaches that is not draining.
    pub unreached: u32,
    /// How many of the covered ones the list of the holder leaves out, since another list has them.
    pub handing_over: u32,
    /// How many each live collector holds, by its name, of those that hold one.
    pub held: List<(Text, u32)>,
    pub sources: List<SourceRow>,
}

/// What is told of a discovery source.
#[derive(Drop)]
pub struct SourceRow {
    pub url: Text,
    /// When it last gave its list, in seconds since 1970, if it did.
    pub last_success: Option<u64>,
    /// Why the last refresh failed, if it did.
    pub fault: Option<Text>,
    /// How many targets its last list has. None where it gave none, as below.
    pub targets: Option<u64>,
    /// How many a rule drops of that list.
    pub dropped: Option<u64>,
    /// How many of that list have no address after the rules.
    pub without_address: Option<u64>,
}

/// A job: an object.
#[tactic(auto, using(crate::proofs::JobFloats::job_row_no_float))]
pub fn job_row_page(alloc: Global, row: &JobRow) -> Result<Text, AllocError>
    ensures { IfOk result (λ t. t ≡ compact_text (job_row_data row.now)) }
{
    let page = job_row_value(alloc, row)?;
    text_of(alloc, &page)
}

fn job_row_value(alloc: Global, row: &JobRow) -> Result<Value, AllocError>
    ensures { IfOk result (λ v. view v ≡ job_row_data row.now) }
{
    let mut members = Map::new(alloc);
    let done = put_job(&mut members, alloc, row);
    object_of(done, members)
}

fn put_job(members: &mut Map<String, Value>, alloc: Global, row: &JobRow) -> Result<(), AllocError>
    requires { members_view members.old.entries ≡ no_members }
    ensures { OnOk result (object (members_view members.new.entries) ≡ job_row_data row.now) }
{
    let collectors = held_value(alloc, row.held.as_slice())?;
    put(members, alloc, "collectors", collectors)?;
    put(members, alloc, "covered", Value::from(row.covered))?;
    put(
        members,
        alloc,
        "handing_over",
        Value::from(row.handing_over),
    )?;
    put_text(members, alloc, "job_name", row.name.as_str())?;
    let links = links_value(alloc, row.name.as_str())?;
    put(members, alloc, "links", links)?;
    put(members, alloc, "live", Value::from(row.live))?;
    let sources = sources_value(alloc, row.sources.as_slice())?;
    put(members, alloc, "sources", sources)?;
    put(members, alloc, "uncovered", Value::from(row.uncovered))?;
    put(members, alloc, "unreached", Value::from(row.unreached))
}

fn links_value(alloc: Global, job: &str) -> Result<Value, AllocError>
    ensures { IfOk result (λ v. view v ≡ links_data job.now) }
{
    let targets = job_link(alloc, job)?;
    let uncovered = uncovered_link(alloc, job)?;
    let (targets, uncovered) = (targets.as_str(), uncovered.as_str());
    json!(in alloc; {"targets": targets, "uncovered": uncovered})
}

fn sources_value(alloc: Global, sources: &[SourceRow]) -> Result<Value, AllocError>
    ensures { IfOk result (λ v. view v ≡ list_data source_data sources.now) }
{
    Ok(Value::Array(source_values(alloc, sources)?))
}

fn source_values(alloc: Global, sources: &[SourceRow]) -> Result<Vec<Value>, AllocError>
    ensures { IfOk result (λ vs. items_view vs.items ≡ items_data source_data sources.now) }
{
    let mut values = Vec::with_capacity(alloc, sources.len())?;
    for source in sources {
        values.push(source_value(alloc, source)?)?;
    }
    Ok(values)
}

fn source_value(alloc: Global, source: &SourceRow) -> Result<Value, AllocError>
    ensures { IfOk result (λ v. view v ≡ source_data source.now) }
{
    let mut members = Map::new(alloc);
    let done = put_source(&mut members, alloc, source);
    object_of(done, members)
}

fn put_source(
    members: &mut Map<String, Value>,
    alloc: Global,
    source: &SourceRow,
) -> Result<(), AllocError>
    requires { members_view members.old.entries ≡ no_members }
    ensures { OnOk result (object (members_view members.new.entries) ≡ source_data source.now) }
{
    put(members, alloc, "dropped", number_or_null(source.dropped))?;
    let fault = fault_value(alloc, &source.fault)?;
    put(members, alloc, "fault", fault)?;
    put(
        members,
        alloc,
        "last_success",
        number_or_null(source.last_success),
    )?;
    put(members, alloc, "targets", number_or_null(source.targets))?;
    put_text(members, alloc, "url", source.url.as_str())?;
    put(
        members,
        alloc,
        "without_address",
        number_or_null(source.without_address),
    )
}

fn fault_value(alloc: Global, fault: &Option<Text>) -> Result<Value, AllocError>
    ensures { IfOk result (λ v. view v ≡ fault_or_null fault.now) }
{
    match fault {
        Some(fault) => Value::try_from_str(alloc, fault.as_str()),
        None => Ok(Value::Null),
    }
}
