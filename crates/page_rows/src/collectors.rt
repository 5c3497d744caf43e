//! What is told of the live collectors.
ghost use Rattle.std.specs.Prelude.{◌≡◌, Some, IfOk, IfSome};
ghost use Rattle.page_rows.specs.Meant.{id_meant};

use allocation_core::Core;
use fleet::{Collector, JobSpec};
use fleet_events::{AllocationNumber, CollectorId, TargetId};
use lists::{List, Plain, Text};
use sd_routes::{CollectorRow, WhichCollector};
use std::alloc::{AllocError, Global};

/// How many live targets of each job a collector holds.
#[derive(Drop)]
struct Tally {
    collector: CollectorId,
    /// By the place of the job.
    held: Vec<u32>,
}

/// What is told of all live collectors, in order of number.
pub fn collector_rows(alloc: Global, core: &Core) -> Result<Vec<CollectorRow>, AllocError> {
    let tallies = tallies_of(alloc, core)?;
    let mut rows = Vec::with_capacity(alloc, tallies.len())?;
    for (collector, tally) in core.collectors().iter().zip(tallies.iter()) {
        rows.push(row_of(alloc, core, collector, tally)?)?;
    }
    Ok(rows)
}

/// What is told of the live collector that is meant, if there is one.
pub fn collector_meant(
    alloc: Global,
    core: &Core,
    which: &WhichCollector,
) -> Result<Option<CollectorRow>, AllocError>
    ensures { IfOk result (λ found. IfSome found (λ row. id_meant core.now which.now ≡ Some row.id)) }
{
    let Some(id) = id_meant(core, which) else {
        return Ok(None);
    };
    let tallies = tallies_of(alloc, core)?;
    for (collector, tally) in core.collectors().iter().zip(tallies.iter()) {
        if collector.id == id {
            return Ok(Some(row_of(alloc, core, collector, tally)?));
        }
    }
    Ok(None)
}

/// The number of the live collector that is meant, if there is one.
fn id_meant(core: &Core, which: &WhichCollector) -> Option<CollectorId>
    ensures { result ≡ id_meant core.now which.now }
{
    match which {
        WhichCollector::Number(id) if core.fleet().is_joined(*id) => Some(*id),
        WhichCollector::Number(_) => None,
        WhichCollector::Name(name) => core.named(name.as_str()),
    }
}

fn row_of(
    alloc: Global,
    core: &Core,
    collector: &Collector,
    tally: &Tally,
) -> Result<CollectorRow, AllocError>
    ensures { IfOk result (λ row. row.id ≡ collector.now.id) }
{
    let name = collector.name.copy()?;
    let reach = collector.reach.copy()?;
    let limits = collector.limits.copy()?;
    let held = held_by_name(alloc, core.fleet().jobs(), tally.held.as_slice())?;
    Ok(CollectorRow {
        id: collector.id,
        name,
        draining: collector.draining,
        reach,
        limits,
        held,
        taken: taken_by(core, collector.id),
        last_take: None,
    })
}

/// How many targets are held, by the names of the jobs of which some are.
fn held_by_name(
    alloc: Global,
    jobs: &[JobSpec],
    held: &[u32],
) -> Result<List<(Text, u32)>, AllocError> {
    let mut named = List::new(alloc);
    for (job, count) in jobs.iter().zip(held.iter()) {
        if *count > 0 {
            named.push((job.name.copy()?, *count))?;
        }
    }
    Ok(named)
}

/// The number of the allocation of a collector's list: of its lists that are served in order, that of the oldest.
fn taken_by(core: &Core, collector: CollectorId) -> Option<AllocationNumber> {
    let jobs = core.fleet().jobs().len();
    let oldest = (0..jobs)
        .filter_map(|job| core.served_number(collector, job))
        .min();
    match (oldest, core.taken(collector)) {
        (Some(number), _) => Some(number),
        (None, 0) => None,
        (None, number) => Some(number),
    }
}

/// What the live collectors hold, in order of their numbers.
fn tallies_of(alloc: Global, core: &Core) -> Result<Vec<Tally>, AllocError> {
    let live = core.fleet().live_marks()?;
    let mut tallies = Vec::with_capacity(alloc, core.collectors().len())?;
    for collector in core.collectors() {
        let held = zeros(alloc, core.fleet().jobs().len())?;
        tallies.push(Tally {
            collector: collector.id,
            held,
        })?;
    }
    for (target, collector) in core.allocation() {
        if live.get(*target as usize) == Some(&true) {
            count(core, *target, *collector, tallies.as_mut_slice());
        }
    }
    Ok(tallies)
}

fn zeros(alloc: Global, length: usize) -> Result<Vec<u32>, AllocError> {
    let mut zeros = Vec::with_capacity(alloc, length)?;
    for _ in 0..length {
        zeros.push(0)?;
    }
    Ok(zeros)
}

/// A target is held by a collector. One that has left holds nothing.
fn count(core: &Core, target: TargetId, collector: CollectorId, tallies: &mut [Tally]) {
    let place = tallies.binary_search_by(|tally| tally.collector.cmp(&collector));
    let (Ok(place), Some(known)) = (place, core.fleet().known().get(target as usize)) else {
        return;
    };
    if let Some(tally) = tallies.get_mut(place) {
        if let Some(held) = tally.held.get_mut(known.job) {
            *held = held.saturating_add(1);
        }
    }
}
