//! The JSON texts of collectors.
ghost use Rattle.std.specs.Prelude.{◌≡◌, IfOk, OnOk};
ghost use Rattle.serde_json.specs.Data.{object, no_members};
ghost use Rattle.serde_json.specs.View.{view, items_view, members_view};
ghost use Rattle.serde_json.specs.Written.{compact_text};
ghost use Rattle.json_values.specs.Spelling.{items_data, list_data};
ghost use Rattle.sd_routes.specs.CollectorPages.{collector_data, held_data, number_or_null};

use crate::members::{object_of, put_text};
use fleet_events::{AllocationNumber, CollectorId};
use json_values::{Spelled, text_of};
use lists::{List, Text};
use reach_rules::{CollectorName, OwnLimits, Reach};
use serde_json::{Map, Value, put};
use std::alloc::{AllocError, Global};

/// What is told of a live collector.
#[derive(Drop)]
pub struct CollectorRow {
    pub id: CollectorId,
    pub name: CollectorName,
    /// Whether it is being emptied.
    pub draining: bool,
    pub reach: Reach,
    /// Its own limits.
    pub limits: OwnLimits,
    /// How many live targets of a job it holds, by the names of the jobs of which it holds one.
    pub held: List<(Text, u32)>,
    /// The number of the allocation of its oldest list, if it has one.
    pub taken: Option<AllocationNumber>,
    /// When it asked for a list last, in seconds since 1970, if it did.
    pub last_take: Option<u64>,
}

/// The live collectors: a list of objects.
#[tactic(auto, using(crate::proofs::CollectorFloats::collectors_no_float))]
pub fn collectors_page(alloc: Global, rows: &[CollectorRow]) -> Result<Text, AllocError>
    ensures { IfOk result (λ t. t ≡ compact_text (list_data collector_data rows.now)) }
{
    let page = collectors_value(alloc, rows)?;
    text_of(alloc, &page)
}

/// One of them: an object.
#[tactic(auto, using(crate::proofs::CollectorFloats::collector_no_float))]
pub fn collector_page(alloc: Global, row: &CollectorRow) -> Result<Text, AllocError>
    ensures { IfOk result (λ t. t ≡ compact_text (collector_data row.now)) }
{
    let page = collector_value(alloc, row)?;
    text_of(alloc, &page)
}

fn collectors_value(alloc: Global, rows: &[CollectorRow]) -> Result<Value, AllocError>
    ensures { IfOk result (λ v. view v ≡ list_data collector_data rows.now) }
{
    Ok(Value::Array(collector_values(alloc, rows)?))
}

fn collector_values(alloc: Global, rows: &[CollectorRow]) -> Result<Vec<Value>, AllocError>
    ensures { IfOk result (λ vs. items_view vs.items ≡ items_data collector_data rows.now) }
{
    let mut values = Vec::with_capacity(alloc, rows.len())?;
    for row in rows {
        values.push(collector_value(alloc, row)?)?;
    }
    Ok(values)
}

fn collector_value(alloc: Global, row: &CollectorRow) -> Result<Value, AllocError>
    ensures { IfOk result (λ v. view v ≡ collector_data row.now) }
{
    let mut members = Map::new(alloc);
    let done = put_collector(&mut members, alloc, row);
    object_of(done, members)
}

fn put_collector(
    members: &mut Map<String, Value>,
    alloc: Global,
    row: &CollectorRow,
) -> Result<(), AllocError>
    requires { members_view members.old.entries ≡ no_members }
    ensures { OnOk result (object (members_view members.new.entries) ≡ collector_data row.now) }
{
    put(members, alloc, "draining", Value::from(row.draining))?;
    let held = held_value(alloc, row.held.as_slice())?;
    put(members, alloc, "held", held)?;
    put(members, alloc, "id", Value::from(row.id))?;
    put(members, alloc, "last_take", number_or_null(row.last_take))?;
    let limits = row.limits.write(alloc)?;
    put(members, alloc, "limits", limits)?;
    put_text(members, alloc, "name", row.name.as_str())?;
    let reach = row.reach.write(alloc)?;
    put(members, alloc, "reach", reach)?;
    put(members, alloc, "taken_allocation", small_or_null(row.taken))
}

pub(crate) fn held_value(alloc: Global, held: &[(Text, u32)]) -> Result<Value, AllocError>
    ensures { IfOk result (λ v. view v ≡ held_data held.now) }
{
    let mut members = Map::new(alloc);
    for share in held {
        put(&mut members, alloc, share.0.as_str(), Value::from(share.1))?;
    }
    Ok(Value::Object(members))
}

/// A number of 32 bits, or that there is none.
pub(crate) fn small_or_null(number: Option<u32>) -> Value
    ensures { view result ≡ number_or_null number }
{
    match number {
        Some(number) => Value::from(number),
        None => Value::Null,
    }
}

pub(crate) fn number_or_null(number: Option<u64>) -> Value
    ensures { view result ≡ number_or_null number }
{
    match number {
        Some(number) => Value::from(number),
        None => Value::Null,
    }
}
