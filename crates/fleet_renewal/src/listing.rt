//! What the sources of the new jobs list.
ghost use Rattle.std.specs.Prelude.{◌≡◌, [], map, slice_index_or, IfOk};
ghost use Rattle.std.specs.List.{filter_map};
ghost use Rattle.fleet_renewal.specs.Renewed.{fitted, job_lists, lists_named, renewed_lists};
ghost use Rattle.fleet_renewal.specs.Tables.{number_in};

use fleet::{Fleet, JobSpec, job_named};
use lists::List;
use std::alloc::{AllocError, Global};

/// For each new job and source the targets that it lists, in the new numbers.
pub(crate) fn renewed_lists(
    alloc: Global,
    fleet: &Fleet,
    numbers: &[Option<u32>],
    jobs: &[JobSpec],
) -> Result<Vec<List<List<usize>>>, AllocError>
    ensures { IfOk result (λ v. v.items ≡ renewed_lists fleet.now (number_in numbers.now) jobs.now) }
{
    let mut listed = Vec::with_capacity(alloc, jobs.len())?;
    for job in jobs {
        let sources = job_lists(alloc, fleet, numbers, job)?;
        listed.push(List::from_vec(sources))?;
    }
    Ok(listed)
}

fn job_lists(
    alloc: Global,
    fleet: &Fleet,
    numbers: &[Option<u32>],
    job: &JobSpec,
) -> Result<Vec<List<usize>>, AllocError>
    ensures { IfOk result (λ v. v.items ≡ job_lists fleet.now (number_in numbers.now) job.now) }
{
    match job_named(fleet.jobs(), job.name.as_str()) {
        Some(place) => fitted(alloc, lists_at(fleet.listed(), place), numbers, job.sources),
        None => fitted(alloc, &[], numbers, job.sources),
    }
}

/// What the sources of the job at a place list.
fn lists_at(listed: &[List<List<usize>>], place: usize) -> &[List<usize>]
    ensures { result.now ≡ slice_index_or listed.now place [] }
{
    match listed.get(place) {
        Some(sources) => sources.as_slice(),
        None => &[],
    }
}

/// So many lists in the new numbers: the first of these, and empty ones behind them.
fn fitted(
    alloc: Global,
    lists: &[List<usize>],
    numbers: &[Option<u32>],
    count: u32,
) -> Result<Vec<List<usize>>, AllocError>
    ensures { IfOk result (λ v. v.items ≡ fitted count (map (filter_map (number_in numbers.now)) lists.now)) }
{
    let mut renewed = Vec::new(alloc);
    for source in 0..count {
        let list = renumbered_at(alloc, lists, numbers, source as usize)?;
        renewed.push(List::from_vec(list))?;
    }
    Ok(renewed)
}

fn renumbered_at(
    alloc: Global,
    lists: &[List<usize>],
    numbers: &[Option<u32>],
    source: usize,
) -> Result<Vec<usize>, AllocError>
    ensures { IfOk result (λ v. v.items ≡ filter_map (number_in numbers.now) (slice_index_or lists.now source [])) }
{
    match lists.get(source) {
        Some(list) => renumbered(alloc, list.as_slice(), numbers),
        None => Ok(Vec::new(alloc)),
    }
}

/// The targets of a list that go on, in the new numbers.
fn renumbered(
    alloc: Global,
    targets: &[usize],
    numbers: &[Option<u32>],
) -> Result<Vec<usize>, AllocError>
    ensures { IfOk result (λ v. v.items ≡ filter_map (number_in numbers.now) targets.now) }
{
    let mut renumbered = Vec::new(alloc);
    for target in targets {
        if let Some(number) = number_at(numbers, *target) {
            renumbered.push(number as usize)?;
        }
    }
    Ok(renumbered)
}

/// The new number of a target.
pub(crate) fn number_at(numbers: &[Option<u32>], target: usize) -> Option<u32>
    ensures { result ≡ number_in numbers.now target }
{
    match numbers.get(target) {
        Some(number) => *number,
        None => None,
    }
}
