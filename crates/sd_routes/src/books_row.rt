//! The JSON text of what was booked in a round.
ghost use Rattle.std.specs.Prelude.{◌≡◌, IfOk, OnOk};
ghost use Rattle.serde_json.specs.Data.{object, no_members};
ghost use Rattle.serde_json.specs.View.{view, items_view, members_view};
ghost use Rattle.serde_json.specs.Written.{compact_text};
ghost use Rattle.json_values.specs.Spelling.{items_data, list_data};
ghost use Rattle.sd_routes.specs.BooksPages.{books_data, collector_books_data, job_books_data};

use crate::allocation_row::name_or_null;
use crate::collector_row::{number_or_null, small_or_null};
use crate::members::{object_of, put_text};
use fleet_events::{CollectorId, Round};
use json_values::text_of;
use lists::{List, Text};
use serde_json::{Map, Value, json, put};
use std::alloc::{AllocError, Global};

/// What was booked in a round.
#[derive(Drop)]
pub struct BooksRow {
    /// The round that is open.
    pub open_round: Round,
    /// The round that is told of. None where no round is over that the books have.
    pub round: Option<Round>,
    /// The jobs, in the order of the configuration.
    pub jobs: List<JobBooks>,
}

/// What was booked of a job in a round.
#[derive(Drop)]
pub struct JobBooks {
    pub job: Text,
    /// What all collectors reported of it.
    pub counts: BookCounts,
    /// What each collector reported of it, in order of number.
    pub collectors: List<CollectorBooks>,
}

/// What a collector reported of a job in a round.
#[derive(Drop)]
pub struct CollectorBooks {
    pub id: CollectorId,
    /// None where it has left.
    pub name: Option<Text>,
    pub counts: BookCounts,
}

/// What was reported of some targets in a round.
#[derive(Clone, Copy, PartialEq, Eq)]
pub struct BookCounts {
    /// How many scrapes were reported as answered.
    pub up: u64,
    /// How many were reported as not answered.
    pub down: u64,
    /// The samples of all of these.
    pub samples: u64,
    /// Of how many live targets, which the last list of their collector has, nothing was reported. None where that is not known.
    pub missing: Option<u64>,
}

/// What was booked in a round: an object.
#[tactic(auto, using(crate::proofs::BooksFloats::books_no_float))]
pub fn books_page(alloc: Global, row: &BooksRow) -> Result<Text, AllocError>
    ensures { IfOk result (λ t. t ≡ compact_text (books_data row.now)) }
{
    let page = books_value(alloc, row)?;
    text_of(alloc, &page)
}

fn books_value(alloc: Global, row: &BooksRow) -> Result<Value, AllocError>
    ensures { IfOk result (λ v. view v ≡ books_data row.now) }
{
    let jobs = Value::Array(job_values(alloc, row.jobs.as_slice())?);
    let round = small_or_null(row.round);
    let open_round = row.open_round;
    json!(in alloc; {"jobs": jobs, "open": open_round, "round": round})
}

fn job_values(alloc: Global, rows: &[JobBooks]) -> Result<Vec<Value>, AllocError>
    ensures { IfOk result (λ vs. items_view vs.items ≡ items_data job_books_data rows.now) }
{
    let mut values = Vec::with_capacity(alloc, rows.len())?;
    for row in rows {
        values.push(job_value(alloc, row)?)?;
    }
    Ok(values)
}

fn job_value(alloc: Global, row: &JobBooks) -> Result<Value, AllocError>
    ensures { IfOk result (λ v. view v ≡ job_books_data row.now) }
{
    let mut members = Map::new(alloc);
    let done = put_job(&mut members, alloc, row);
    object_of(done, members)
}

fn put_job(
    members: &mut Map<String, Value>,
    alloc: Global,
    row: &JobBooks,
) -> Result<(), AllocError>
    requires { members_view members.old.entries ≡ no_members }
    ensures { OnOk result (object (members_view members.new.entries) ≡ job_books_data row.now) }
{
    let collectors = collectors_value(alloc, row.collectors.as_slice())?;
    put(members, alloc, "collectors", collectors)?;
    put(members, alloc, "down", Value::from(row.counts.down))?;
    put_text(members, alloc, "job", row.job.as_str())?;
    put(
        members,
        alloc,
        "missing",
        number_or_null(row.counts.missing),
    )?;
    put(members, alloc, "samples", Value::from(row.counts.samples))?;
    put(members, alloc, "up", Value::from(row.counts.up))
}

fn collectors_value(alloc: Global, rows: &[CollectorBooks]) -> Result<Value, AllocError>
    ensures { IfOk result (λ v. view v ≡ list_data collector_books_data rows.now) }
{
    Ok(Value::Array(collector_values(alloc, rows)?))
}

fn collector_values(alloc: Global, rows: &[CollectorBooks]) -> Result<Vec<Value>, AllocError>
    ensures { IfOk result (λ vs. items_view vs.items ≡ items_data collector_books_data rows.now) }
{
    let mut values = Vec::with_capacity(alloc, rows.len())?;
    for row in rows {
        values.push(collector_value(alloc, row)?)?;
    }
    Ok(values)
}

fn collector_value(alloc: Global, row: &CollectorBooks) -> Result<Value, AllocError>
    ensures { IfOk result (λ v. view v ≡ collector_books_data row.now) }
{
    let mut members = Map::new(alloc);
    let done = put_collector(&mut members, alloc, row);
    object_of(done, members)
}

fn put_collector(
    members: &mut Map<String, Value>,
    alloc: Global,
    row: &CollectorBooks,
) -> Result<(), AllocError>
    requires { members_view members.old.entries ≡ no_members }
    ensures { OnOk result (object (members_view members.new.entries) ≡ collector_books_data row.now) }
{
    put(members, alloc, "down", Value::from(row.counts.down))?;
    put(members, alloc, "id", Value::from(row.id))?;
    put(
        members,
        alloc,
        "missing",
        number_or_null(row.counts.missing),
    )?;
    let name = name_or_null(alloc, &row.name)?;
    put(members, alloc, "name", name)?;
    put(members, alloc, "samples", Value::from(row.counts.samples))?;
    put(members, alloc, "up", Value::from(row.counts.up))
}
