//! Jobs in a row.
use allocation_core::JobSpec;
use lists::Text;
use std::alloc::{AllocError, Global};

/// The jobs of a text, as `a 2 1, b 0 3`.
pub(crate) fn jobs_of(alloc: Global, text: &str) -> Result<Vec<JobSpec>, AllocError> {
    let mut jobs = Vec::new(alloc);
    if text.is_empty() {
        return Ok(jobs);
    }
    for job in text.split(", ") {
        jobs.push(job_of(alloc, job)?)?;
    }
    Ok(jobs)
}

fn job_of(alloc: Global, text: &str) -> Result<JobSpec, AllocError> {
    let (job, sources) = text.rsplit_once(' ').unwrap_or((text, ""));
    let (name, limit) = job.rsplit_once(' ').unwrap_or((job, ""));
    Ok(JobSpec {
        name: Text::from_str(alloc, name)?,
        target_limit: number(limit),
        sources: number(sources),
    })
}

/// So many jobs, each with a name of its own, no limit and one source.
pub(crate) fn many_jobs(alloc: Global, count: u32) -> Result<Vec<JobSpec>, AllocError> {
    let mut jobs = Vec::new(alloc);
    for number in 0..count {
        jobs.push(numbered(alloc, number)?)?;
    }
    Ok(jobs)
}

fn numbered(alloc: Global, number: u32) -> Result<JobSpec, AllocError> {
    let name = format!(in alloc; "j{number}")?;
    Ok(JobSpec {
        name: Text::from_string(name),
        target_limit: 0,
        sources: 1,
    })
}

/// The number of a text, 0 where it is none.
pub(crate) fn number(text: &str) -> u32 {
    text.parse().unwrap_or(0)
}
