//! A core made of a history's parts, once there is no fault in them.
ghost use Rattle.std.specs.Prelude.{◌≡◌, ◌≢◌, ◌&&◌, ◌<◌, ℕ, AllPairs, IfErr, IfOk, Ok, Err, None, true, length, map, nat_le, nat_lt};
ghost use Rattle.std.specs.List.{list_all};
ghost use Rattle.lists.specs.Rising.{rises};
ghost use Rattle.fleet.specs.Fleet.{is_joined};
ghost use Rattle.fleet.specs.Parts.{fleet_of, parts_fault};
ghost use Rattle.served_lists.specs.Served.{slot_of, tabulated};
ghost use Rattle.core_history.specs.History.{checked, IsFaultOf, are_slots, is_allocation, slots_of};
ghost use Rattle.core_history.specs.declared.error.HistoryError.TheVariants.{Memory};

use crate::error::HistoryError;
use crate::history::{Certificate, History};
use allocation_core::{Core, ReportRounds};
use fleet::{Fleet, FleetParts};
use lists::List;
use std::alloc::{AllocError, Global};

/// The core of a history, or the first fault.
#[tactic(auto, unfolding(crate::specs::History::checked))]
pub(crate) fn restored(alloc: Global, history: History) -> Result<Core, HistoryError>
    ensures state { IfOk result (λ c. checked history ≡ Ok c) }
    ensures fault { IfErr result (λ e. e ≢ Memory → checked history ≡ Err e) }
{
    let History {
        allocation,
        certificate,
        fleet,
        round,
        served,
    } = history;
    let fleet = match fleet_restored(alloc, fleet) {
        Ok(fleet) => fleet,
        Err(error) => {
            drop((allocation, certificate, served));
            return Err(error);
        }
    };
    if !is_allocation(&fleet, allocation.as_slice()) {
        drop((allocation, certificate, fleet, served));
        return Err(HistoryError::BadAllocation);
    }
    if round == 0 {
        drop((allocation, certificate, fleet, served));
        return Err(HistoryError::BadRound);
    }
    if !are_slots(&fleet, &served) {
        drop((allocation, certificate, fleet, served));
        return Err(HistoryError::BadServed);
    }
    let slots = match slots_of(alloc, &fleet, &served) {
        Ok(slots) => slots,
        Err(error) => {
            drop((allocation, certificate, fleet, served));
            return Err(error.into());
        }
    };
    drop(served);
    let Certificate { instance, plan } = certificate;
    match Core::restored(
        alloc,
        fleet,
        allocation,
        slots,
        round,
        instance,
        plan,
        ReportRounds::least(),
    ) {
        Ok(core) => Ok(core),
        Err(error) => Err(error.into()),
    }
}

/// Whether there are not more slots than known targets, of collectors that joined once.
fn are_slots(fleet: &Fleet, served: &Option<List<u32>>) -> bool
    ensures { result ≡ are_slots fleet.now served.now }
{
    match served {
        Some(slots) => {
            slots.len() <= fleet.known().len()
                && were_given(slots.as_slice(), fleet.last_collector())
        }
        None => true,
    }
}

fn were_given(collectors: &[u32], last: u32) -> bool
    ensures { result ≡ list_all (λ (collector : ℕ). nat_le collector last) collectors.now }
{
    collectors.iter().all(|collector| *collector <= last)
}

/// A slot for each known target: where none is said no list has it.
fn slots_of(
    alloc: Global,
    fleet: &Fleet,
    served: &Option<List<u32>>,
) -> Result<Vec<u32>, AllocError>
    ensures { IfOk result (λ v. v.items ≡ slots_of fleet.now served.now) }
{
    match served {
        Some(slots) => padded(alloc, slots.as_slice(), fleet.known().len()),
        None => padded(alloc, &[], fleet.known().len()),
    }
}

/// So many slots, of which these are the first.
fn padded(alloc: Global, slots: &[u32], count: usize) -> Result<Vec<u32>, AllocError>
    ensures { IfOk result (λ v. v.items ≡ tabulated (slot_of slots.now) count) }
{
    let mut all = Vec::with_capacity(alloc, count)?;
    for target in 0..count {
        all.push(slot_of(slots, target))?;
    }
    Ok(all)
}

fn slot_of(slots: &[u32], target: usize) -> u32
    ensures { result ≡ slot_of slots.now target }
{
    match slots.get(target) {
        Some(collector) => *collector,
        None => 0,
    }
}

/// The fleet of the parts, or their first fault.
fn fleet_restored(alloc: Global, parts: FleetParts) -> Result<Fleet, HistoryError>
    ensures fleet { IfOk result (λ f. (f ≡ fleet_of parts) × (parts_fault (fleet_of parts) ≡ None)) }
    ensures fault { IfErr result (λ e. e ≢ Memory → IsFaultOf (fleet_of parts) e) }
{
    match Fleet::restored(alloc, parts) {
        Ok(fleet) => Ok(fleet),
        Err(fault) => Err(fault.into()),
    }
}

/// Whether the pairs name known targets, in ascending order, and live collectors.
fn is_allocation(fleet: &Fleet, pairs: &[(u32, u32)]) -> bool
    ensures is { result ≡ is_allocation fleet.now pairs.now }
    ensures ascending { result ≡ true → AllPairs (λ (a b : ℕ × ℕ). a.0 < b.0) pairs.now }
{
    if !are_known(fleet, pairs) {
        return false;
    }
    rises(pairs)
}

fn are_known(fleet: &Fleet, pairs: &[(u32, u32)]) -> bool
    ensures { result ≡ list_all (λ (q : ℕ × ℕ). nat_lt q.0 (length fleet.now.known) && is_joined fleet.now q.1) pairs.now }
{
    pairs.iter().all(|pair| is_known(fleet, *pair))
}

fn is_known(fleet: &Fleet, pair: (u32, u32)) -> bool
    ensures { result ≡ (nat_lt pair.0 (length fleet.now.known) && is_joined fleet.now pair.1) }
{
    if pair.0 as usize >= fleet.known().len() {
        return false;
    }
    fleet.is_joined(pair.1)
}

/// Whether the pairs are in ascending order of target.
fn rises(pairs: &[(u32, u32)]) -> bool
    ensures rises { result ≡ rises (map (λ (q : ℕ × ℕ). q.0) pairs.now) }
    ensures ascending { result ≡ true → AllPairs (λ (a b : ℕ × ℕ). a.0 < b.0) pairs.now }
{
    for i in 1..pairs.len() {
        if pairs[i].0 <= pairs[i - 1].0 {
            return false;
        }
    }
    true
}
