//! The parts of a document that is written.
ghost use Rattle.std.specs.Prelude.{◌≡◌, Some, IfOk};
ghost use Rattle.serde_json.specs.View.{view};
ghost use Rattle.json_values.specs.Spelling.{number_in, pair_in, list_in, number_data, pair_data, list_data};
ghost use Rattle.price_certificate.specs.declared.version.Version.TheVariants.{One, Two};
ghost use Rattle.price_certificate.specs.Document.{pairs_from, marked_from, data_by, object_of as object_data, SpellsInstance, SpellsPlan};
ghost use Rattle.price_certificate.specs.Reach.{reach_data, rows_in};

use super::sharing::shared_reach;
use crate::instance::Instance;
use crate::plan::Plan;
use crate::version::Version;
use json_values::{Spelled, array_of};
use serde_json::{Map, Value, put};
use std::alloc::{AllocError, Global};

/// The values of a document's members.
#[derive(Drop)]
struct Members {
    before: Value,
    bin_prices: Value,
    bins: Value,
    draining: Value,
    item_prices: Value,
    pairs: Value,
    reach: Value,
}

/// The value that spells an instance and a plan, where items share their lists of bins or not.
pub(crate) fn value_of(
    alloc: Global,
    instance: &Instance,
    plan: &Plan,
    shares: bool,
) -> Result<Value, AllocError>
    ensures form { IfOk result (λ v. view v ≡ data_by shares instance.now plan.now.pairs plan.now.item_prices plan.now.bin_prices) }
    ensures instance { IfOk result (λ v. SpellsInstance (view v) instance.now) }
    ensures plan { IfOk result (λ v. SpellsPlan (view v) plan.now.pairs plan.now.item_prices plan.now.bin_prices) }
{
    instance.is_problem();
    let members = Members {
        before: before_of(alloc, instance)?,
        bin_prices: plan.bin_prices.write(alloc)?,
        bins: bins_of(alloc, instance)?,
        draining: draining_of(alloc, instance)?,
        item_prices: plan.item_prices.write(alloc)?,
        pairs: plan.pairs.write(alloc)?,
        reach: reach_by(alloc, instance, shares)?,
    };
    object_of(alloc, instance.version(), members)
}

/// The object of these members.
fn object_of(alloc: Global, version: Version, members: Members) -> Result<Value, AllocError>
    ensures { IfOk result (λ v. view v ≡ object_data version (view members.before) (view members.bin_prices) (view members.bins) (view members.draining) (view members.item_prices) (view members.pairs) (view members.reach)) }
{
    match version {
        Version::One => first_object(alloc, members),
        Version::Two => second_object(alloc, members),
    }
}

/// The object of version 1.
fn first_object(alloc: Global, members: Members) -> Result<Value, AllocError>
    ensures { IfOk result (λ v. view v ≡ object_data One (view members.before) (view members.bin_prices) (view members.bins) (view members.draining) (view members.item_prices) (view members.pairs) (view members.reach)) }
{
    let mut map = Map::new(alloc);
    put(&mut map, alloc, "before", members.before)?;
    put(&mut map, alloc, "bin_prices", members.bin_prices)?;
    put(&mut map, alloc, "bins", members.bins)?;
    put(&mut map, alloc, "item_prices", members.item_prices)?;
    put(&mut map, alloc, "pairs", members.pairs)?;
    put(&mut map, alloc, "reach", members.reach)?;
    put(&mut map, alloc, "version", Value::from(1u32))?;
    Ok(Value::Object(map))
}

/// The object of version 2.
fn second_object(alloc: Global, members: Members) -> Result<Value, AllocError>
    ensures { IfOk result (λ v. view v ≡ object_data Two (view members.before) (view members.bin_prices) (view members.bins) (view members.draining) (view members.item_prices) (view members.pairs) (view members.reach)) }
{
    let mut map = Map::new(alloc);
    put(&mut map, alloc, "before", members.before)?;
    put(&mut map, alloc, "bin_prices", members.bin_prices)?;
    put(&mut map, alloc, "bins", members.bins)?;
    put(&mut map, alloc, "draining", members.draining)?;
    put(&mut map, alloc, "item_prices", members.item_prices)?;
    put(&mut map, alloc, "pairs", members.pairs)?;
    put(&mut map, alloc, "reach", members.reach)?;
    put(&mut map, alloc, "version", Value::from(2u32))?;
    Ok(Value::Object(map))
}

/// The draining bins.
fn draining_of(alloc: Global, instance: &Instance) -> Result<Value, AllocError>
    ensures form { IfOk result (λ v. view v ≡ list_data number_data (marked_from 0 instance.now.draining)) }
    ensures reads_back { IfOk result (λ v. list_in number_in (view v) ≡ Some (marked_from 0 instance.now.draining)) }
{
    let draining = marked_of(alloc, instance)?;
    array_of(alloc, draining.as_slice())
}

/// The bins that drain, in ascending order.
fn marked_of(alloc: Global, instance: &Instance) -> Result<Vec<u32>, AllocError>
    ensures { IfOk result (λ v. v.items ≡ marked_from 0 instance.now.draining) }
{
    let bins = instance.bins();
    instance.is_problem();
    let mut draining = Vec::new(alloc);
    for bin in 0..bins {
        if instance.drains(bin) {
            draining.push(bin as u32)?;
        }
    }
    Ok(draining)
}

/// The pairs before, in order of items.
fn before_of(alloc: Global, instance: &Instance) -> Result<Value, AllocError>
    ensures form { IfOk result (λ v. view v ≡ list_data pair_data (pairs_from 0 instance.now.before)) }
    ensures reads_back { IfOk result (λ v. list_in pair_in (view v) ≡ Some (pairs_from 0 instance.now.before)) }
{
    let preceding = preceding_of(alloc, instance)?;
    array_of(alloc, preceding.as_slice())
}

/// The limits.
fn bins_of(alloc: Global, instance: &Instance) -> Result<Value, AllocError>
    ensures form { IfOk result (λ v. view v ≡ list_data number_data instance.now.limits) }
    ensures reads_back { IfOk result (λ v. list_in number_in (view v) ≡ Some instance.now.limits) }
{
    let limits = limits_of(alloc, instance)?;
    array_of(alloc, limits.as_slice())
}

/// The limit of each bin.
fn limits_of(alloc: Global, instance: &Instance) -> Result<Vec<u32>, AllocError>
    ensures { IfOk result (λ v. v.items ≡ instance.now.limits) }
{
    let bins = instance.bins();
    let mut limits = Vec::with_capacity(alloc, bins)?;
    for bin in 0..bins {
        limits.push(instance.limit(bin))?;
    }
    Ok(limits)
}

/// Each item that was in a bin, with the bin, in order of items.
fn preceding_of(alloc: Global, instance: &Instance) -> Result<Vec<(u32, u32)>, AllocError>
    ensures { IfOk result (λ v. v.items ≡ pairs_from 0 instance.now.before) }
{
    let items = instance.items();
    instance.is_problem();
    let mut pairs = Vec::new(alloc);
    for item in 0..items {
        if let Some(bin) = instance.before(item) {
            pairs.push((item as u32, bin))?;
        }
    }
    Ok(pairs)
}

/// The member `reach`.
fn reach_by(alloc: Global, instance: &Instance, shares: bool) -> Result<Value, AllocError>
    ensures form { IfOk result (λ v. view v ≡ reach_data shares instance.now) }
    ensures reads_back { IfOk result (λ v. rows_in (view v) ≡ Some instance.now.rows) }
{
    if shares {
        return shared_reach(alloc, instance);
    }
    reach_of(alloc, instance)
}

/// For each item the list of its bins.
fn reach_of(alloc: Global, instance: &Instance) -> Result<Value, AllocError>
    ensures form { IfOk result (λ v. view v ≡ list_data (list_data number_data) instance.now.rows) }
    ensures reads_back { IfOk result (λ v. rows_in (view v) ≡ Some instance.now.rows) }
{
    let items = instance.items();
    let mut rows = Vec::with_capacity(alloc, items)?;
    for item in 0..items {
        rows.push(array_of(alloc, instance.row(item))?)?;
    }
    Ok(Value::Array(rows))
}
