//! The JSON texts of allocations.
ghost use Rattle.std.specs.Prelude.{◌≡◌, IfOk, OnOk};
ghost use Rattle.serde_json.specs.Data.{object, no_members};
ghost use Rattle.serde_json.specs.View.{view, items_view, members_view};
ghost use Rattle.serde_json.specs.Written.{compact_text};
ghost use Rattle.json_values.specs.Spelling.{items_data, list_data};
ghost use Rattle.sd_routes.specs.AllocationPages.{allocation_data, move_data};
ghost use Rattle.sd_routes.specs.FoundPages.{holder_data};

use crate::members::{object_of, put_text};
use fleet_events::AllocationNumber;
use json_values::text_of;
use lists::{List, Text};
use serde_json::{Map, Value, put};
use std::alloc::{AllocError, Global};

/// What is told of an allocation that was published.
#[derive(Drop)]
pub struct AllocationRow {
    pub number: AllocationNumber,
    /// When it was published, as a timestamp (RFC 3339).
    pub published: Text,
    /// How many targets it covers.
    pub covered: u64,
    /// How many live targets it takes from the live collectors that held them before.
    pub moved: u64,
    /// How many it leaves with collectors that drain.
    pub left: u64,
    /// How long it took to find and publish, in milliseconds.
    pub milliseconds: u64,
    /// What moved from whom to whom.
    pub moves: List<MoveRow>,
    /// How many of those that moved no row of `moves` tells.
    pub more_moves: u64,
}

/// What is told of the targets of a job that moved alike.
#[derive(Drop)]
pub struct MoveRow {
    pub job: Text,
    /// The collector that held them.
    pub from: Text,
    /// The one that holds them now, if one does.
    pub to: Option<Text>,
    /// How many they are.
    pub count: u64,
}

/// The allocations: a list of objects.
#[tactic(auto, using(crate::proofs::AllocationFloats::allocations_no_float))]
pub fn allocations_page(alloc: Global, rows: &[AllocationRow]) -> Result<Text, AllocError>
    ensures { IfOk result (λ t. t ≡ compact_text (list_data allocation_data rows.now)) }
{
    let page = allocations_value(alloc, rows)?;
    text_of(alloc, &page)
}

fn allocations_value(alloc: Global, rows: &[AllocationRow]) -> Result<Value, AllocError>
    ensures { IfOk result (λ v. view v ≡ list_data allocation_data rows.now) }
{
    Ok(Value::Array(allocation_values(alloc, rows)?))
}

fn allocation_values(alloc: Global, rows: &[AllocationRow]) -> Result<Vec<Value>, AllocError>
    ensures { IfOk result (λ vs. items_view vs.items ≡ items_data allocation_data rows.now) }
{
    let mut values = Vec::with_capacity(alloc, rows.len())?;
    for row in rows {
        values.push(allocation_value(alloc, row)?)?;
    }
    Ok(values)
}

fn allocation_value(alloc: Global, row: &AllocationRow) -> Result<Value, AllocError>
    ensures { IfOk result (λ v. view v ≡ allocation_data row.now) }
{
    let mut members = Map::new(alloc);
    let done = put_allocation(&mut members, alloc, row);
    object_of(done, members)
}

fn put_allocation(
    members: &mut Map<String, Value>,
    alloc: Global,
    row: &AllocationRow,
) -> Result<(), AllocError>
    requires { members_view members.old.entries ≡ no_members }
    ensures { OnOk result (object (members_view members.new.entries) ≡ allocation_data row.now) }
{
    put(members, alloc, "covered", Value::from(row.covered))?;
    put(members, alloc, "left", Value::from(row.left))?;
    put(
        members,
        alloc,
        "milliseconds",
        Value::from(row.milliseconds),
    )?;
    put(members, alloc, "more_moves", Value::from(row.more_moves))?;
    put(members, alloc, "moved", Value::from(row.moved))?;
    let moves = moves_value(alloc, row.moves.as_slice())?;
    put(members, alloc, "moves", moves)?;
    put(members, alloc, "number", Value::from(row.number))?;
    put_text(members, alloc, "published", row.published.as_str())
}

fn moves_value(alloc: Global, rows: &[MoveRow]) -> Result<Value, AllocError>
    ensures { IfOk result (λ v. view v ≡ list_data move_data rows.now) }
{
    Ok(Value::Array(move_values(alloc, rows)?))
}

fn move_values(alloc: Global, rows: &[MoveRow]) -> Result<Vec<Value>, AllocError>
    ensures { IfOk result (λ vs. items_view vs.items ≡ items_data move_data rows.now) }
{
    let mut values = Vec::with_capacity(alloc, rows.len())?;
    for row in rows {
        values.push(move_value(alloc, row)?)?;
    }
    Ok(values)
}

fn move_value(alloc: Global, row: &MoveRow) -> Result<Value, AllocError>
    ensures { IfOk result (λ v. view v ≡ move_data row.now) }
{
    let mut members = Map::new(alloc);
    let done = put_move(&mut members, alloc, row);
    object_of(done, members)
}

fn put_move(
    members: &mut Map<String, Value>,
    alloc: Global,
    row: &MoveRow,
) -> Result<(), AllocError>
    requires { members_view members.old.entries ≡ no_members }
    ensures { OnOk result (object (members_view members.new.entries) ≡ move_data row.now) }
{
    put(members, alloc, "count", Value::from(row.count))?;
    put_text(members, alloc, "from", row.from.as_str())?;
    put_text(members, alloc, "job", row.job.as_str())?;
    let to = name_or_null(alloc, &row.to)?;
    put(members, alloc, "to", to)
}

/// The name of a collector, or that there is none.
pub(crate) fn name_or_null(alloc: Global, name: &Option<Text>) -> Result<Value, AllocError>
    ensures { IfOk result (λ v. view v ≡ holder_data name.now) }
{
    match name {
        Some(name) => Value::try_from_str(alloc, name.as_str()),
        None => Ok(Value::Null),
    }
}
