//! What an allocator knows, in a few words.
use allocation_core::{Collector, Core, JobSpec};
use fleet::{Fleet, KnownTarget};
use lists::List;
use reach_rules::OwnLimits;
use std::alloc::{AllocError, Global};

/// What an allocator knows, without its certificate and who took which allocation: each job with the targets of each source, each known target
/// with the place of its job, each collector with the targets that it reaches, and each target of the allocation with its collector.
pub(crate) fn outline(alloc: Global, core: &Core) -> Result<String, AllocError> {
    let round = core.round();
    let mut text = format!(in alloc; "round {round}; ")?;
    push_fleet(alloc, &mut text, core.fleet())?;
    push_allocation(alloc, &mut text, core)?;
    Ok(text)
}

fn push_allocation(alloc: Global, text: &mut String, core: &Core) -> Result<(), AllocError> {
    let number = core.current();
    push(text, format!(in alloc; "allocation {number}"))?;
    for pair in core.allocation() {
        push_pair(alloc, text, *pair)?;
    }
    let reports = core.reports();
    let total = core.total();
    push(text, format!(in alloc; "; booked {reports} total {total}"))
}

/// A target with its collector.
fn push_pair(alloc: Global, text: &mut String, pair: (u32, u32)) -> Result<(), AllocError> {
    let (target, collector) = pair;
    push(text, format!(in alloc; " {target}={collector}"))
}

/// Pushes a part where there was memory for it.
fn push(text: &mut String, part: Result<String, AllocError>) -> Result<(), AllocError> {
    match part {
        Ok(part) => text.push_str(part.as_str()),
        Err(error) => Err(error),
    }
}

fn push_fleet(alloc: Global, text: &mut String, fleet: &Fleet) -> Result<(), AllocError> {
    for (job, sources) in fleet.jobs().iter().zip(fleet.listed()) {
        push_job(alloc, text, job, sources.as_slice())?;
    }
    for target in fleet.known() {
        push_target(alloc, text, target)?;
    }
    for place in 0..fleet.collectors().len() {
        push_collector(alloc, text, fleet, place)?;
    }
    let given = fleet.last_collector();
    push(text, format!(in alloc; "given {given}; "))
}

fn push_job(
    alloc: Global,
    text: &mut String,
    job: &JobSpec,
    sources: &[List<usize>],
) -> Result<(), AllocError> {
    let name = job.name.as_str();
    let limit = job.target_limit;
    push(text, format!(in alloc; "job {name} limit {limit}"))?;
    for numbers in sources {
        push_numbers(alloc, text, numbers.as_slice())?;
    }
    text.push_str("; ")
}

fn push_numbers(alloc: Global, text: &mut String, numbers: &[usize]) -> Result<(), AllocError> {
    text.push_str(" |")?;
    for number in numbers {
        push_number(alloc, text, *number)?;
    }
    Ok(())
}

fn push_number(alloc: Global, text: &mut String, number: usize) -> Result<(), AllocError> {
    push(text, format!(in alloc; " {number}"))
}

/// The place of its job, and its address.
fn push_target(alloc: Global, text: &mut String, known: &KnownTarget) -> Result<(), AllocError> {
    let job = known.job;
    let address = known.target.get("__address__");
    push(text, format!(in alloc; "target {job} {address}; "))
}

fn push_collector(
    alloc: Global,
    text: &mut String,
    fleet: &Fleet,
    place: usize,
) -> Result<(), AllocError> {
    if let Some(collector) = fleet.collectors().get(place) {
        push_name(alloc, text, collector)?;
        push_limits(alloc, text, &collector.limits)?;
    }
    text.push_str(" reaches")?;
    for number in 0..fleet.known().len() {
        if fleet.reaches(place, number) {
            push_number(alloc, text, number)?;
        }
    }
    text.push_str("; ")
}

fn push_name(alloc: Global, text: &mut String, collector: &Collector) -> Result<(), AllocError> {
    let id = collector.id;
    let name = collector.name.as_str();
    push(text, format!(in alloc; "collector {id} {name}"))?;
    if collector.draining {
        text.push_str(" draining")?;
    }
    Ok(())
}

fn push_limits(alloc: Global, text: &mut String, limits: &OwnLimits) -> Result<(), AllocError> {
    for limit in limits.entries() {
        push_limit(alloc, text, limit.0.as_str(), limit.1)?;
    }
    Ok(())
}

fn push_limit(alloc: Global, text: &mut String, job: &str, most: u32) -> Result<(), AllocError> {
    push(text, format!(in alloc; " {job}={most}"))
}
