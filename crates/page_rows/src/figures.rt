//! What a desk shows of itself in numbers.
use crate::handing_over::{HandingOver, targets_handing_over};
use allocation_core::Core;
use fleet::{Collector, JobSpec};
use fleet_events::{AllocationNumber, CollectorId, TargetId};
use lists::{Plain, Text};
use service_pages::{CollectorFigures, Figures, JobFigures, ShareFigures};
use std::alloc::{AllocError, Global};

/// The numbers of a desk at a moment, whose journal has so many entries.
pub fn figures_of(alloc: Global, core: &Core, entries: usize) -> Result<Figures, AllocError> {
    let mut figures = no_figures(alloc, core, entries)?;
    match count_all(alloc, core, &mut figures) {
        Ok(()) => Ok(figures),
        Err(refused) => {
            drop(figures);
            Err(refused)
        }
    }
}

/// The numbers of a desk before anything is counted.
fn no_figures(alloc: Global, core: &Core, entries: usize) -> Result<Figures, AllocError> {
    let jobs = empty_jobs(alloc, core)?;
    match idle_collectors(alloc, core) {
        Ok(collectors) => Ok(Figures {
            jobs,
            collectors,
            allocation: core.current(),
            round: core.round(),
            samples: core.total(),
            entries,
            waited_for_left: 0,
        }),
        Err(refused) => {
            drop(jobs);
            Err(refused)
        }
    }
}

fn count_all(alloc: Global, core: &Core, figures: &mut Figures) -> Result<(), AllocError> {
    let live = core.fleet().live_marks()?;
    count_live(core, live.as_slice(), figures);
    count_covered(core, live.as_slice(), figures);
    let waiting = targets_handing_over(alloc, core)?;
    count_handing_over(core, waiting.as_slice(), figures);
    Ok(())
}

fn empty_jobs(alloc: Global, core: &Core) -> Result<Vec<JobFigures>, AllocError> {
    let mut jobs = Vec::new(alloc);
    match push_jobs(&mut jobs, core) {
        Ok(()) => Ok(jobs),
        Err(refused) => {
            drop(jobs);
            Err(refused)
        }
    }
}

fn push_jobs(jobs: &mut Vec<JobFigures>, core: &Core) -> Result<(), AllocError> {
    for job in core.fleet().jobs() {
        let name = job.name.copy()?;
        jobs.push(JobFigures {
            name,
            live: 0,
            covered: 0,
            handing_over: 0,
            taken: 0,
        })?;
    }
    Ok(())
}

fn idle_collectors(alloc: Global, core: &Core) -> Result<Vec<CollectorFigures>, AllocError> {
    let mut collectors = Vec::new(alloc);
    match push_collectors(&mut collectors, alloc, core) {
        Ok(()) => Ok(collectors),
        Err(refused) => {
            drop(collectors);
            Err(refused)
        }
    }
}

fn push_collectors(
    collectors: &mut Vec<CollectorFigures>,
    alloc: Global,
    core: &Core,
) -> Result<(), AllocError> {
    for collector in core.collectors() {
        collectors.push(idle_collector(alloc, core, collector)?)?;
    }
    Ok(())
}

fn idle_collector(
    alloc: Global,
    core: &Core,
    collector: &Collector,
) -> Result<CollectorFigures, AllocError> {
    let shares = idle_shares(alloc, core.fleet().jobs(), collector)?;
    match Text::from_str(alloc, collector.name.as_str()) {
        Ok(name) => Ok(CollectorFigures {
            name,
            id: collector.id,
            draining: collector.draining,
            held: 0,
            shares,
            taken: last_list(core, collector.id),
            room: room_of(core.fleet().jobs(), collector),
            waited_for: 0,
        }),
        Err(refused) => {
            drop(shares);
            Err(refused)
        }
    }
}

/// The number of the allocation of its last list: of its lists that are served in order, that of the oldest; 0 where it has none.
fn last_list(core: &Core, collector: CollectorId) -> AllocationNumber {
    match oldest_list(core, collector) {
        Some(number) => number,
        None => core.taken(collector),
    }
}

fn oldest_list(core: &Core, collector: CollectorId) -> Option<AllocationNumber> {
    let jobs = core.fleet().jobs().len();
    (0..jobs)
        .filter_map(|job| core.served_number(collector, job))
        .min()
}

fn idle_shares(
    alloc: Global,
    jobs: &[JobSpec],
    collector: &Collector,
) -> Result<Vec<ShareFigures>, AllocError> {
    let mut shares = Vec::with_capacity(alloc, jobs.len())?;
    for job in jobs {
        shares.push(ShareFigures {
            held: 0,
            limit: collector.share_limit(job),
            has_own_limit: collector.limits.limit(job.name.as_str()) > 0,
        })?;
    }
    Ok(shares)
}

/// How many targets a collector may hold of all jobs together, where each job has a limit for it.
fn room_of(jobs: &[JobSpec], collector: &Collector) -> Option<u64> {
    let mut room: u64 = 0;
    for job in jobs {
        match collector.share_limit(job) {
            0 => return None,
            limit => room = room.saturating_add(u64::from(limit)),
        }
    }
    Some(room)
}

fn count_live(core: &Core, live: &[bool], figures: &mut Figures) {
    for (target, is_live) in core.fleet().known().iter().zip(live.iter()) {
        if *is_live {
            if let Some(job) = figures.jobs.get_mut(target.job) {
                job.live = job.live.saturating_add(1);
            }
        }
    }
}

fn count_covered(core: &Core, live: &[bool], figures: &mut Figures) {
    for (target, collector) in core.allocation() {
        if live.get(*target as usize) == Some(&true) {
            count_one(core, *target, *collector, figures);
        }
    }
}

/// A live target is held by a collector. One that has left holds nothing.
fn count_one(core: &Core, target: TargetId, collector: CollectorId, figures: &mut Figures) {
    let place = figures
        .collectors
        .binary_search_by(|other| other.id.cmp(&collector));
    let (Ok(place), Some(known)) = (place, core.fleet().known().get(target as usize)) else {
        return;
    };
    if let Some(job) = figures.jobs.get_mut(known.job) {
        job.covered = job.covered.saturating_add(1);
        if is_taken(core, known.job, target, collector) {
            job.taken = job.taken.saturating_add(1);
        }
    }
    if let Some(holder) = figures.collectors.get_mut(place) {
        holder.held = holder.held.saturating_add(1);
        if let Some(share) = holder.shares.get_mut(known.job) {
            share.held = share.held.saturating_add(1);
        }
    }
}

/// Whether the last list of a job that a collector was given has a target that it holds: where its list is served in order, that list, and
/// else what it held in the allocation that it took last.
pub(crate) fn is_taken(core: &Core, job: usize, target: TargetId, holder: CollectorId) -> bool {
    if core.slots().get(target as usize) == Some(&holder) {
        return true;
    }
    if core.served_number(holder, job).is_some() {
        return false;
    }
    let taken = core.taken(holder);
    taken == core.current() || core.holder(taken, target) == Some(holder)
}

fn count_handing_over(core: &Core, waiting: &[HandingOver], figures: &mut Figures) {
    for one in waiting {
        if let Some(known) = core.fleet().known().get(one.target as usize) {
            if let Some(job) = figures.jobs.get_mut(known.job) {
                job.handing_over = job.handing_over.saturating_add(1);
            }
        }
        count_waited_for(one.waits_for, figures);
    }
}

fn count_waited_for(collector: CollectorId, figures: &mut Figures) {
    let place = figures
        .collectors
        .binary_search_by(|other| other.id.cmp(&collector));
    match place {
        Ok(place) => count_waited_for_at(place, figures),
        Err(_) => figures.waited_for_left = figures.waited_for_left.saturating_add(1),
    }
}

fn count_waited_for_at(place: usize, figures: &mut Figures) {
    if let Some(collector) = figures.collectors.get_mut(place) {
        collector.waited_for = collector.waited_for.saturating_add(1);
    }
}
