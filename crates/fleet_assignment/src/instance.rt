//! The assignment problem of a fleet: items are its live targets, bins each collector's share of each job. The way back, from a
//! plan to an allocation, is in `allocation.rt`.
ghost use Rattle.std.specs.Prelude.{◌≡◌, ◌<◌, ◌≤◌, ◌*◌, ◌+◌, ◌++◌, ℕ, None, Some, false, All, AllPairs, length, map, option_and_then, slice_get, slice_index_or, IfOk, IfSome, OnOk};
ghost use Rattle.price_certificate.specs.Problem.{IsShaped, IsProblemOf};
ghost use Rattle.price_certificate.specs.Document.{marked_from};
ghost use Rattle.price_certificate.specs.Rows.{rows_of};
ghost use Rattle.price_certificate.specs.declared.version.Version.TheVariants.{Two};
ghost use Rattle.fleet.specs.Fleet.{live_of};
ghost use Rattle.fleet.specs.ShareLimit.{share_limit};
ghost use Rattle.fleet.specs.declared.collector.Collector.{Collector};
ghost use Rattle.fleet.specs.declared.job.JobSpec.{JobSpec};
ghost use Rattle.fleet.specs.declared.known_target.KnownTarget.{KnownTarget};
ghost use Rattle.fleet_assignment.specs.Instance.{instance_of, limits_for, draining_for, row_in, place_of, bin_in, problem_of};
ghost use Rattle.fleet_assignment.specs.Tables.{preceding_from};

use crate::bin::bin_of;
use crate::rows::rows;
use crate::table::placed;
use fleet::{
    Collector, Fleet, JobSpec, KnownTarget, MOST_BINS, MOST_COLLECTORS, MOST_LIVE_TARGETS,
};
use lists::List;
use price_certificate::{Instance, InstanceError, Rows};
use std::alloc::{AllocError, Global};

/// The assignment problem of a fleet, of which the live targets are given, and of a preceding allocation.
#[tactic(auto, unfolding(crate::specs::Instance::instance_of))]
pub fn build_instance(
    alloc: Global,
    fleet: &Fleet,
    live: &[usize],
    before: &[(u32, u32)],
) -> Result<Instance, AllocError>
    requires { live.now ≡ live_of fleet.now }
    ensures { IfOk result (λ i. i ≡ instance_of fleet.now before.now) }
{
    let rows = rows(alloc, fleet, live)?;
    instance(
        alloc,
        fleet.jobs(),
        fleet.collectors(),
        fleet.known(),
        live,
        rows,
        before,
    )
}

/// The instance of the live targets and their rows, with the pairs of an allocation before.
fn instance(
    alloc: Global,
    jobs: &[JobSpec],
    collectors: &[Collector],
    known: &[KnownTarget],
    live: &[usize],
    rows: Rows,
    pairs: &[(u32, u32)],
) -> Result<Instance, AllocError>
    requires homes { All (λ (k : KnownTarget). k.job < length jobs.now) known.now }
    requires bins { length jobs.now * length collectors.now ≤ MOST_BINS }
    requires collectors { length collectors.now ≤ MOST_COLLECTORS }
    requires live { length live.now ≤ MOST_LIVE_TARGETS }
    requires numbers { All (λ n. n < length known.now) live.now }
    requires ascending { AllPairs (λ (a b : Collector). a.id < b.id) collectors.now }
    requires rows { rows_of rows ≡ map (row_in (length jobs.now) collectors.now known.now) live.now }
    ensures { IfOk result (λ i. i ≡ problem_of jobs.now collectors.now known.now live.now pairs.now) }
{
    let limits = limits(alloc, jobs, collectors)?;
    let draining = draining(alloc, jobs.len(), collectors)?;
    let holders = placed(alloc, known.len(), pairs)?;
    let before = preceding(
        alloc,
        jobs.len(),
        collectors,
        known,
        live,
        holders.as_slice(),
    )?;
    let instance = made(alloc, limits, draining, rows, before)?;
    Ok(instance)
}

/// The instance of its parts.
fn made(
    alloc: Global,
    limits: Vec<u32>,
    draining: Vec<u32>,
    rows: Rows,
    before: Vec<(u32, u32)>,
) -> Result<Instance, AllocError>
    requires { IsShaped limits.items draining.items (rows_of rows) before.items }
    ensures { IfOk result (λ i. IsProblemOf i Two limits.items draining.items (rows_of rows) before.items) }
{
    let limits = List::from_vec(limits);
    let draining = List::from_vec(draining);
    let before = List::from_vec(before);
    match Instance::new_shared(alloc, limits, draining, rows, before) {
        Ok(instance) => Ok(instance),
        Err(InstanceError::Memory) => Err(AllocError),
        Err(InstanceError::Shape) => unreachable!(),
    }
}

/// The limits of the bins: for each collector those of its shares of the jobs.
fn limits(alloc: Global, jobs: &[JobSpec], collectors: &[Collector]) -> Result<Vec<u32>, AllocError>
    ensures { IfOk result (λ v. v.items ≡ limits_for jobs.now collectors.now) }
{
    let mut limits = Vec::new(alloc);
    for collector in collectors {
        push_limits(&mut limits, jobs, collector)?;
    }
    Ok(limits)
}

/// The limits of a collector's shares of the jobs.
fn push_limits(
    limits: &mut Vec<u32>,
    jobs: &[JobSpec],
    collector: &Collector,
) -> Result<(), AllocError>
    ensures { OnOk result (limits.new.items ≡ limits.old.items ++ map (λ (job : JobSpec). share_limit job collector.now) jobs.now) }
{
    for job in jobs {
        limits.push(collector.share_limit(job))?;
    }
    Ok(())
}

/// The bins that drain, in ascending order.
fn draining(alloc: Global, jobs: usize, collectors: &[Collector]) -> Result<Vec<u32>, AllocError>
    requires { jobs * length collectors.now ≤ MOST_BINS }
    ensures { IfOk result (λ v. v.items ≡ marked_from 0 (draining_for jobs collectors.now)) }
{
    let mut draining = Vec::new(alloc);
    for bin in 0..jobs * collectors.len() {
        if drains(jobs, collectors, bin) {
            draining.push(bin as u32)?;
        }
    }
    Ok(draining)
}

/// Whether a bin drains.
fn drains(jobs: usize, collectors: &[Collector], bin: usize) -> bool
    requires { bin < jobs * length collectors.now }
    ensures { result ≡ slice_index_or (draining_for jobs collectors.now) bin false }
{
    collectors[bin / jobs].draining
}

/// The place of a live collector: they are in order of number.
fn place_of(collectors: &[Collector], id: u32) -> Option<usize>
    requires { AllPairs (λ (a b : Collector). a.id < b.id) collectors.now }
    ensures place { result ≡ place_of collectors.now id }
    ensures within { IfSome result (λ p. p < length collectors.now) }
{
    collectors
        .binary_search_by(|collector| collector.id.cmp(&id))
        .ok()
}

/// The bin of a target at a collector, where that is live.
fn bin_in(
    jobs: usize,
    collectors: &[Collector],
    known: &[KnownTarget],
    number: usize,
    collector: u32,
) -> Option<u32>
    requires homes { All (λ (k : KnownTarget). k.job < jobs) known.now }
    requires bins { jobs * length collectors.now ≤ MOST_BINS }
    requires ascending { AllPairs (λ (a b : Collector). a.id < b.id) collectors.now }
    ensures { result ≡ bin_in jobs collectors.now known.now number collector }
{
    if number >= known.len() {
        return None;
    }
    let job = known[number].job;
    match place_of(collectors, collector) {
        None => None,
        Some(place) => Some(bin_of(jobs, collectors.len(), place, job)),
    }
}

/// The bins before, as pairs of an item and a bin.
fn preceding(
    alloc: Global,
    jobs: usize,
    collectors: &[Collector],
    known: &[KnownTarget],
    live: &[usize],
    holders: &[Option<u32>],
) -> Result<Vec<(u32, u32)>, AllocError>
    requires homes { All (λ (k : KnownTarget). k.job < jobs) known.now }
    requires bins { jobs * length collectors.now ≤ MOST_BINS }
    requires ascending { AllPairs (λ (a b : Collector). a.id < b.id) collectors.now }
    requires live { length live.now ≤ MOST_LIVE_TARGETS }
    ensures { IfOk result (λ v. v.items ≡ preceding_from (λ (t : ℕ). option_and_then (bin_in jobs collectors.now known.now t) (slice_index_or holders.now t None)) 0 live.now) }
{
    let mut pairs = Vec::new(alloc);
    for item in 0..live.len() {
        if let Some(bin) = bin_held(jobs, collectors, known, holders, live[item]) {
            pairs.push((item as u32, bin))?;
        }
    }
    Ok(pairs)
}

/// The bin of a target at the collector that holds it.
fn bin_held(
    jobs: usize,
    collectors: &[Collector],
    known: &[KnownTarget],
    holders: &[Option<u32>],
    number: usize,
) -> Option<u32>
    requires homes { All (λ (k : KnownTarget). k.job < jobs) known.now }
    requires bins { jobs * length collectors.now ≤ MOST_BINS }
    requires ascending { AllPairs (λ (a b : Collector). a.id < b.id) collectors.now }
    ensures { result ≡ option_and_then (bin_in jobs collectors.now known.now number) (slice_index_or holders.now number None) }
{
    if number >= holders.len() {
        return None;
    }
    match holders[number] {
        None => None,
        Some(collector) => bin_in(jobs, collectors, known, number, collector),
    }
}
