//! Lists of jobs: which are good ones, and look-ups.
ghost use Rattle.std.specs.Prelude.{◌≡◌, ◌&&◌, [], not, replicate, IfOk};
ghost use Rattle.std.specs.Str.{bytes_eq};
ghost use Rattle.fleet.specs.Jobs.{are_for_jobs, are_jobs, is_job, job_named, nothing_listed, sources_at};

use crate::job::JobSpec;
use crate::limits::MOST_JOBS;
use lists::{List, Text};
use std::alloc::{AllocError, Global};

/// Whether there are not too many jobs, each with a name of its own.
pub fn are_jobs(jobs: &[JobSpec]) -> bool
    ensures { result ≡ are_jobs jobs.now }
{
    if jobs.len() > MOST_JOBS {
        return false;
    }
    for i in 0..jobs.len() {
        if !is_new_name(&jobs[..i], jobs[i].name.as_str()) {
            return false;
        }
    }
    true
}

/// Whether the name is one, and none of the jobs has it.
fn is_new_name(before: &[JobSpec], name: &str) -> bool
    ensures { result ≡ (not (bytes_eq name.now []) && not (is_job before.now name.now)) }
{
    !name.is_empty() && !has_job(before, name)
}

/// Whether one of the jobs has the name.
pub fn has_job(jobs: &[JobSpec], name: &str) -> bool
    ensures { result ≡ is_job jobs.now name.now }
{
    jobs.iter().any(|other| other.name.as_str() == name)
}

/// Whether each limit is for one of the jobs.
pub(crate) fn are_for_jobs(jobs: &[JobSpec], limits: &[(Text, u32)]) -> bool
    ensures { result ≡ are_for_jobs jobs.now limits.now }
{
    limits.iter().all(|limit| has_job(jobs, limit.0.as_str()))
}

/// The place of the job of a name.
pub fn job_named(jobs: &[JobSpec], name: &str) -> Option<usize>
    ensures { result ≡ job_named jobs.now name.now }
{
    jobs.iter().position(|job| job.name.as_str() == name)
}

/// How many sources the job at a place has.
pub(crate) fn sources_at(jobs: &[JobSpec], job: usize) -> u32
    ensures { result ≡ sources_at jobs.now job }
{
    match jobs.get(job) {
        Some(job) => job.sources,
        None => 0,
    }
}

/// An empty list for each job and source.
pub(crate) fn nothing_listed(
    alloc: Global,
    jobs: &[JobSpec],
) -> Result<Vec<List<List<usize>>>, AllocError>
    ensures { IfOk result (λ v. v.items ≡ nothing_listed jobs.now) }
{
    let mut listed = Vec::with_capacity(alloc, jobs.len())?;
    for job in jobs {
        let sources = empty_lists(alloc, job.sources)?;
        listed.push(List::from_vec(sources))?;
    }
    Ok(listed)
}

fn empty_lists(alloc: Global, count: u32) -> Result<Vec<List<usize>>, AllocError>
    ensures { IfOk result (λ v. v.items ≡ replicate count []) }
{
    let mut lists = Vec::new(alloc);
    for _ in 0..count {
        lists.push(List::new(alloc))?;
    }
    Ok(lists)
}
