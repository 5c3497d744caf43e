//! The set of known targets and the table of answers, made of lists.
ghost use Rattle.std.specs.Prelude.{◌≡◌, IfNone, IfOk, IfSome, IsTrue, Some, false, map, slice_get, true};
ghost use Rattle.std.specs.Option.{option_map};
ghost use Rattle.fleet.specs.Parts.{are_distinct};
ghost use Rattle.fleet.specs.Reached.{reach_rows, target_at, targets_at, targets_of};
ghost use Rattle.fleet.specs.declared.collector.Collector.{Collector as AnyCollector};

use crate::collector::Collector;
use crate::known_target::KnownTarget;
use indexmap::IndexSet;
use lists::Plain;
use reach_rules::{Reach, ReachTable};
use std::alloc::{AllocError, Global};

/// The set of these targets, in their order, unless one is there twice.
pub(crate) fn known_set(
    alloc: Global,
    targets: Vec<KnownTarget>,
) -> Result<Option<IndexSet<KnownTarget>>, AllocError>
    ensures some { IfOk result (λ o. IfSome o (λ s. (s.keys ≡ targets.items) × (are_distinct targets.items ≡ true))) }
    ensures none { IfOk result (λ o. IfNone o (are_distinct targets.items ≡ false)) }
{
    let mut known = IndexSet::new(alloc);
    for target in targets {
        let (_, is_new) = known.insert_full(target)?;
        if !is_new {
            return Ok(None);
        }
    }
    Ok(Some(known))
}

/// The answers of the collectors' rules for the known targets.
pub(crate) fn reach_table(
    alloc: Global,
    collectors: &[Collector],
    known: &[KnownTarget],
) -> Result<ReachTable, AllocError>
    ensures { IfOk result (λ t. t.rows ≡ reach_rows collectors.now known.now) }
{
    let mut table = ReachTable::open(alloc);
    for collector in collectors {
        table.join(collector.id, &collector.reach, known)?;
    }
    Ok(table)
}

/// Whether the collector at a place has these rules.
pub(crate) fn has_reach(collectors: &[Collector], place: usize, reach: &Reach) -> bool
    ensures { IsTrue result → option_map (λ (c : AnyCollector). c.reach) (slice_get collectors.now place) ≡ Some reach.now }
{
    match collectors.get(place) {
        Some(collector) => collector.reach.same(reach),
        None => false,
    }
}

/// Whether these targets are those of these numbers among others, in this order.
pub(crate) fn are_at(known: &[KnownTarget], others: &[KnownTarget], numbers: &[usize]) -> bool
    ensures { IsTrue result → targets_at others.now numbers.now ≡ map Some (targets_of known.now) }
{
    if known.len() != numbers.len() {
        return false;
    }
    for place in 0..known.len() {
        if !is_at(&known[place], others, numbers[place]) {
            return false;
        }
    }
    true
}

/// Whether the target is that of a number among others.
fn is_at(known: &KnownTarget, others: &[KnownTarget], number: usize) -> bool
    ensures { IsTrue result → target_at others.now number ≡ Some known.now.target }
{
    match others.get(number) {
        Some(other) => other.target.same(&known.target),
        None => false,
    }
}
