//! The collectors that go on, with their own limits as far as the jobs stay.
ghost use Rattle.std.specs.Prelude.{◌≡◌, IsTrue, filter, map, IfOk};
ghost use Rattle.std.specs.FinMap.{is_sorted};
ghost use Rattle.reach_rules.specs.Name.{byte_cmp};
ghost use Rattle.fleet.specs.Jobs.{is_job};
ghost use Rattle.fleet_renewal.specs.Renewed.{limits_for, renewed_collector};

use fleet::{Collector, JobSpec, has_job};
use lists::{Plain, Text};
use reach_rules::OwnLimits;
use std::alloc::{AllocError, Global};

/// The collectors under a new list of jobs.
pub(crate) fn renewed_collectors(
    alloc: Global,
    collectors: &[Collector],
    jobs: &[JobSpec],
) -> Result<Vec<Collector>, AllocError>
    ensures { IfOk result (λ v. v.items ≡ map (renewed_collector jobs.now) collectors.now) }
{
    let mut renewed = Vec::with_capacity(alloc, collectors.len())?;
    for collector in collectors {
        let collector = renewed_collector(alloc, collector, jobs)?;
        renewed.push(collector)?;
    }
    Ok(renewed)
}

fn renewed_collector(
    alloc: Global,
    collector: &Collector,
    jobs: &[JobSpec],
) -> Result<Collector, AllocError>
    ensures { IfOk result (λ c. c ≡ renewed_collector jobs.now collector.now) }
{
    let name = collector.name.copy()?;
    let reach = collector.reach.copy()?;
    let entries = limits_for(alloc, collector.limits.entries(), jobs)?;
    let limits = OwnLimits::of(alloc, entries.as_slice())?;
    Ok(Collector {
        id: collector.id,
        name,
        reach,
        draining: collector.draining,
        limits,
    })
}

/// The entries that are for one of the jobs.
fn limits_for(
    alloc: Global,
    entries: &[(Text, u32)],
    jobs: &[JobSpec],
) -> Result<Vec<(Text, u32)>, AllocError>
    ensures { IfOk result (λ v. v.items ≡ limits_for jobs.now entries.now) }
{
    let mut kept = Vec::new(alloc);
    for entry in entries {
        if has_job(jobs, entry.0.as_str()) {
            let entry = entry.copy()?;
            kept.push(entry)?;
        }
    }
    Ok(kept)
}
