//! A fleet renewed.
ghost use Rattle.std.specs.Prelude.{◌≡◌, ◌<◌, ◌≤◌, ◌*◌, None, ℕ, true, length, AllPairs, IfErr, IfOk, OnOk};
ghost use Rattle.fleet.specs.IsFleet.{IsFleet};
ghost use Rattle.fleet.specs.Jobs.{are_jobs};
ghost use Rattle.fleet_renewal.specs.Renewed.{IsWhyNot, carried, fleet_refusal, renewed_fleet, renewed_slots};

use crate::collectors::renewed_collectors;
use crate::error::RenewError;
use crate::known::renewed_known;
use crate::listing::renewed_lists;
use crate::pairs::carried;
use crate::slots::marked_slots;
use crate::survivors::{new_numbers, new_places, survivors};
use fleet::{Fleet, JobSpec, MOST_BINS, are_jobs};
use lists::List;
use std::alloc::{AllocError, Global};

/// A fleet that goes on, with the allocation and the slots that are carried over, in order of the new numbers.
#[derive(Drop)]
pub struct RenewedFleet {
    pub fleet: Fleet,
    pub pairs: List<(u32, u32)>,
    pub slots: List<u32>,
}

/// The fleet under a new list of jobs, where these pairs are its current allocation and these slots those of the lists that were
/// served. The old fleet stays as it is.
pub fn renew_fleet(
    alloc: Global,
    fleet: &Fleet,
    jobs: Vec<JobSpec>,
    pairs: &[(u32, u32)],
    slots: &[u32],
) -> Result<RenewedFleet, RenewError>
    ensures fleet { IfOk result (λ r. r.fleet ≡ renewed_fleet fleet.now pairs.now slots.now jobs.items) }
    ensures pairs { IfOk result (λ r. r.pairs ≡ carried fleet.now pairs.now slots.now jobs.items) }
    ensures slots { IfOk result (λ r. r.slots ≡ renewed_slots fleet.now pairs.now slots.now jobs.items) }
    ensures ascending { AllPairs (λ (a b : ℕ × ℕ). a.0 < b.0) pairs.now → IfOk result (λ r. AllPairs (λ (a b : ℕ × ℕ). a.0 < b.0) r.pairs) }
    ensures slots_fit { IfOk result (λ r. length r.slots ≡ length r.fleet.known) }
    ensures kept { IfOk result (λ r. IsFleet r.fleet) }
    ensures granted { OnOk result (fleet_refusal fleet.now jobs.items ≡ None) }
    ensures refused { IfErr result (IsWhyNot (fleet_refusal fleet.now jobs.items)) }
{
    if let Some(refusal) = fleet_refusal(fleet, jobs.as_slice()) {
        return Err(refusal);
    }
    match renewed(alloc, fleet, jobs, pairs, slots) {
        Ok(renewed) => Ok(renewed),
        Err(_) => Err(RenewError::Memory),
    }
}

/// The first reason against a renewal. It takes no memory.
pub fn fleet_refusal(fleet: &Fleet, jobs: &[JobSpec]) -> Option<RenewError>
    ensures { result ≡ fleet_refusal fleet.now jobs.now }
{
    if !are_jobs(jobs) {
        return Some(RenewError::BadJobs);
    }
    if jobs.len() * fleet.collectors().len() > MOST_BINS {
        return Some(RenewError::TooManyBins);
    }
    None
}

/// The fleet under jobs that are good, with not too many bins.
#[tactic(auto, unfolding(crate::specs::Renewed::renewed_fleet, crate::specs::Renewed::carried, crate::specs::Renewed::renewed_slots))]
fn renewed(
    alloc: Global,
    fleet: &Fleet,
    jobs: Vec<JobSpec>,
    pairs: &[(u32, u32)],
    slots: &[u32],
) -> Result<RenewedFleet, AllocError>
    requires jobs { are_jobs jobs.items ≡ true }
    requires bins { length jobs.items * length fleet.now.collectors ≤ MOST_BINS }
    ensures fleet { IfOk result (λ r. r.fleet ≡ renewed_fleet fleet.now pairs.now slots.now jobs.items) }
    ensures pairs { IfOk result (λ r. r.pairs ≡ carried fleet.now pairs.now slots.now jobs.items) }
    ensures slots { IfOk result (λ r. r.slots ≡ renewed_slots fleet.now pairs.now slots.now jobs.items) }
    ensures kept { IfOk result (λ r. IsFleet r.fleet) }
{
    let places = new_places(alloc, fleet.jobs(), jobs.as_slice())?;
    let marks = survivors(fleet, jobs.as_slice(), places.as_slice(), pairs, slots)?;
    let numbers = new_numbers(alloc, marks.as_slice())?;
    let pairs = carried(alloc, fleet, numbers.as_slice(), pairs)?;
    let listed = renewed_lists(alloc, fleet, numbers.as_slice(), jobs.as_slice())?;
    let known = renewed_known(alloc, fleet.known(), places.as_slice(), marks.as_slice())?;
    let collectors = renewed_collectors(alloc, fleet.collectors(), jobs.as_slice())?;
    let slots = marked_slots(alloc, slots, marks.as_slice())?;
    let fleet = Fleet::of_parts(
        alloc,
        jobs,
        listed,
        known,
        collectors,
        fleet.last_collector(),
        fleet,
        marks.as_slice(),
    )?;
    Ok(RenewedFleet {
        fleet,
        pairs: List::from_vec(pairs),
        slots: List::from_vec(slots),
    })
}
