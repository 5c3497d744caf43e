//! The bins that each live target may use. Targets of one job that the same collectors reach share a list of them.
ghost use Rattle.std.specs.Prelude.{◌≡◌, ◌<◌, ◌++◌, ◌∷◌, ℕ, List, [], Some, IfOk, IfSome, IsTrue, OnOk, length, map, slice_get, slice_index};
ghost use Rattle.price_certificate.specs.Rows.{rows_of};
ghost use Rattle.fleet_assignment.specs.Instance.{row_for, row_from};
ghost use Rattle.fleet.specs.Reached.{reaches_at};
ghost use Rattle.fleet_assignment.specs.Sharing.{AreAsked, IsAsked, IsListOf, IsSharing};

use crate::bin::bin_of;
use fleet::{Collector, Fleet, KnownTarget};
use lists::{List, Plain};
use price_certificate::Rows;
use std::alloc::{AllocError, Global};

/// How many collectors are asked of a target at the most. Where more differ in their rules, no target shares a list.
const MOST_ASKED_COLLECTORS: usize = 32;

/// How many slots there are at the most. Each remembers one list.
const MOST_SLOTS: usize = 32_768;

/// In how many slots a list is looked for.
const TRIES: usize = 4;

/// What stands in a slot that remembers no list.
const NOTHING: u32 = u32::MAX;

/// The lists so far, the target that each was made for, and for each target so far the number of its list. `slots` says by what is asked of a
/// target where its list may be, and `bins` is where bins are gathered.
#[derive(Drop)]
struct Sharing {
    lists: Vec<List<u32>>,
    firsts: Vec<usize>,
    list_of: Vec<u32>,
    slots: Vec<u32>,
    bins: Vec<u32>,
}

/// For each of these targets the bins that it may use.
pub(crate) fn rows(alloc: Global, fleet: &Fleet, live: &[usize]) -> Result<Rows, AllocError>
    ensures { IfOk result (λ r. rows_of r ≡ map (row_for fleet.now) live.now) }
{
    let asked = asked(alloc, fleet.collectors())?;
    match nothing_shared(alloc, live.len(), asked.len()) {
        Ok(mut sharing) => {
            let shared = share_all(alloc, fleet, asked.as_slice(), live, &mut sharing);
            drop(asked);
            match shared {
                Ok(()) => Ok(rows_in(sharing)),
                Err(error) => {
                    drop(sharing);
                    Err(error)
                }
            }
        }
        Err(error) => {
            drop(asked);
            Err(error)
        }
    }
}

/// No target yet, with slots for so many targets.
fn nothing_shared(alloc: Global, targets: usize, asked: usize) -> Result<Sharing, AllocError>
    ensures { IfOk result (λ s. (s.lists.items ≡ []) × (s.firsts.items ≡ []) × (s.list_of.items ≡ [])) }
{
    let list_of = Vec::with_capacity(alloc, targets)?;
    match vec![in alloc; NOTHING; slot_count(targets, asked)] {
        Ok(slots) => Ok(Sharing {
            lists: Vec::new(alloc),
            firsts: Vec::new(alloc),
            list_of,
            slots,
            bins: Vec::new(alloc),
        }),
        Err(error) => {
            drop(list_of);
            Err(error)
        }
    }
}

/// How many slots there are: enough for a list of each target, as far as there may be so many, and none where no target shares a list.
fn slot_count(targets: usize, asked: usize) -> usize {
    if asked > MOST_ASKED_COLLECTORS {
        return 0;
    }
    targets.min(MOST_SLOTS).next_power_of_two()
}

/// The rows of all targets.
fn rows_in(sharing: Sharing) -> Rows
    ensures lists { result.lists ≡ sharing.lists.items }
    ensures list_of { result.list_of ≡ sharing.list_of.items }
{
    let Sharing {
        lists,
        firsts,
        list_of,
        slots,
        bins,
    } = sharing;
    drop((firsts, slots, bins));
    Rows {
        lists: List::from_vec(lists),
        list_of: List::from_vec(list_of),
    }
}

/// The places of collectors of which one has the rules of each: all but those that have the rules of one of the first
/// `MOST_ASKED_COLLECTORS` of them.
fn asked(alloc: Global, collectors: &[Collector]) -> Result<Vec<usize>, AllocError>
    ensures { IfOk result (λ v. AreAsked collectors.now v.items) }
{
    let mut asked = Vec::new(alloc);
    for place in 0..collectors.len() {
        if !is_asked(collectors, asked.as_slice(), place) {
            asked.push(place)?;
        }
    }
    Ok(asked)
}

/// Whether one of the first collectors that are asked has the rules of the one at a place.
fn is_asked(collectors: &[Collector], asked: &[usize], place: usize) -> bool
    requires { place < length collectors.now }
    ensures { IsTrue result → IsAsked collectors.now asked.now place }
{
    let reach = &collectors[place].reach;
    for i in 0..asked.len().min(MOST_ASKED_COLLECTORS) {
        if let Some(other) = collectors.get(asked[i]) {
            if other.reach.same(reach) {
                return true;
            }
        }
    }
    false
}

/// Adds the rows of these targets.
fn share_all(
    alloc: Global,
    fleet: &Fleet,
    asked: &[usize],
    live: &[usize],
    sharing: &mut Sharing,
) -> Result<(), AllocError>
    requires asked { AreAsked fleet.now.collectors asked.now }
    requires lists { sharing.old.lists.items ≡ [] }
    requires firsts { sharing.old.firsts.items ≡ [] }
    requires list_of { sharing.old.list_of.items ≡ [] }
    ensures { OnOk result (IsSharing fleet.now live.now sharing.new.lists.items sharing.new.firsts.items sharing.new.list_of.items) }
{
    for number in live {
        share(alloc, fleet, asked, *number, sharing)?;
    }
    Ok(())
}

/// Adds the row of a target.
fn share(
    alloc: Global,
    fleet: &Fleet,
    asked: &[usize],
    number: usize,
    sharing: &mut Sharing,
) -> Result<(), AllocError>
    requires { AreAsked fleet.now.collectors asked.now }
    ensures { OnOk result ((targets : List ℕ) → IsSharing fleet.now targets sharing.old.lists.items sharing.old.firsts.items sharing.old.list_of.items
        → IsSharing fleet.now (targets ++ number ∷ []) sharing.new.lists.items sharing.new.firsts.items sharing.new.list_of.items) }
{
    let slot = slot_of(fleet, asked, number);
    match list_in(
        fleet,
        asked,
        sharing.firsts.as_slice(),
        sharing.slots.as_slice(),
        slot,
        number,
    ) {
        Some(list) => {
            sharing.list_of.push(list)?;
            Ok(())
        }
        None => {
            let list = add_list(alloc, fleet, number, sharing)?;
            remember(sharing.slots.as_mut_slice(), slot, list);
            Ok(())
        }
    }
}

/// Adds a list for a target, and returns its number.
fn add_list(
    alloc: Global,
    fleet: &Fleet,
    number: usize,
    sharing: &mut Sharing,
) -> Result<u32, AllocError>
    ensures lists { OnOk result (sharing.new.lists.items ≡ sharing.old.lists.items ++ row_for fleet.now number ∷ []) }
    ensures firsts { OnOk result (sharing.new.firsts.items ≡ sharing.old.firsts.items ++ number ∷ []) }
    ensures list_of { OnOk result (sharing.new.list_of.items ≡ sharing.old.list_of.items ++ length sharing.old.lists.items ∷ []) }
{
    let list = u32::try_from(sharing.lists.len()).map_err(|_| AllocError)?;
    let row = row_at(alloc, fleet, number, &mut sharing.bins)?;
    sharing.lists.push(row)?;
    sharing.firsts.push(number)?;
    sharing.list_of.push(list)?;
    Ok(list)
}

/// Where the list of a target is remembered, by its job and by which of the collectors that are asked reach it: in the slot of
/// this number, where slots are counted round and round, or in one of the next.
fn slot_of(fleet: &Fleet, asked: &[usize], number: usize) -> usize {
    if asked.len() > MOST_ASKED_COLLECTORS {
        return 0;
    }
    let mut seen = match fleet.known().get(number) {
        Some(known) => known.job as u64,
        None => 0,
    };
    for place in asked {
        seen = (seen << 1).wrapping_add(u64::from(fleet.reaches(*place, number)));
    }
    (seen.wrapping_mul(0x9E37_79B9_7F4A_7C15) >> 32) as usize
}

/// The number of a list of this target among those that are remembered there, if it has one.
fn list_in(
    fleet: &Fleet,
    asked: &[usize],
    firsts: &[usize],
    slots: &[u32],
    slot: usize,
    number: usize,
) -> Option<u32>
    requires { AreAsked fleet.now.collectors asked.now }
    ensures { IfSome result (λ list. IsListOf fleet.now firsts.now list number) }
{
    for step in 0..TRIES {
        let list = at_slot(slots, slot.wrapping_add(step));
        if is_list_of(fleet, asked, firsts, list, number) {
            return Some(list);
        }
    }
    None
}

/// What a slot remembers.
fn at_slot(slots: &[u32], slot: usize) -> u32 {
    if slots.is_empty() {
        return NOTHING;
    }
    slots[slot % slots.len()]
}

/// Remembers a list in the first free slot from one on, or else in place of what is there.
fn remember(slots: &mut [u32], slot: usize, list: u32) {
    for step in 0..TRIES {
        let at = slot.wrapping_add(step);
        if at_slot(slots, at) == NOTHING {
            put(slots, at, list);
            return;
        }
    }
    put(slots, slot, list);
}

fn put(slots: &mut [u32], slot: usize, list: u32) {
    if !slots.is_empty() {
        let count = slots.len();
        slots[slot % count] = list;
    }
}

/// Whether there is a list of this number, and it was made for a target of the same job that the same collectors reach.
fn is_list_of(fleet: &Fleet, asked: &[usize], firsts: &[usize], list: u32, number: usize) -> bool
    requires { AreAsked fleet.now.collectors asked.now }
    ensures { IsTrue result → IsListOf fleet.now firsts.now list number }
{
    match firsts.get(list as usize) {
        Some(first) => are_alike(fleet, asked, *first, number),
        None => false,
    }
}

/// Whether two targets are of one job and the same collectors reach them.
fn are_alike(fleet: &Fleet, asked: &[usize], first: usize, number: usize) -> bool
    requires { AreAsked fleet.now.collectors asked.now }
    ensures { IsTrue result → row_for fleet.now first ≡ row_for fleet.now number }
{
    let known = fleet.known();
    match (known.get(first), known.get(number)) {
        (Some(one), Some(other)) if one.job == other.job => {
            are_reached_alike(fleet, asked, first, number)
        }
        _ => false,
    }
}

/// Whether those collectors that reach one of two targets reach the other.
fn are_reached_alike(fleet: &Fleet, asked: &[usize], first: usize, number: usize) -> bool
    ensures { IsTrue result → (i : ℕ) → i < length asked.now → reaches_at fleet.now (slice_index asked.now i) first ≡ reaches_at fleet.now (slice_index asked.now i) number }
{
    for place in asked {
        if fleet.reaches(*place, first) != fleet.reaches(*place, number) {
            return false;
        }
    }
    true
}

/// The bins that a target may use. They are gathered where there is room for them already, and copied from there.
fn row_at(
    alloc: Global,
    fleet: &Fleet,
    number: usize,
    bins: &mut Vec<u32>,
) -> Result<List<u32>, AllocError>
    ensures { IfOk result (λ row. row ≡ row_for fleet.now number) }
{
    bins.clear();
    if let Some(known) = fleet.known().get(number) {
        push_row(bins, fleet, number, known)?;
    }
    let row = Vec::from_slice(alloc, bins.as_slice())?;
    Ok(List::from_vec(row))
}

/// Adds the bins of the target's job at the collectors that reach it.
#[inline(never)]
fn push_row(
    bins: &mut Vec<u32>,
    fleet: &Fleet,
    number: usize,
    known: &KnownTarget,
) -> Result<(), AllocError>
    requires { slice_get fleet.now.known number ≡ Some known.now }
    ensures { OnOk result (bins.new.items ≡ bins.old.items ++ row_from (length fleet.now.jobs) 0 fleet.now.collectors known.now) }
{
    let jobs = fleet.jobs().len();
    let collectors = fleet.collectors().len();
    let job = known.job;
    for place in 0..collectors {
        let bin = bin_of(jobs, collectors, place, job);
        if fleet.reaches(place, number) {
            bins.push(bin)?;
        }
    }
    Ok(())
}
