//! The allocator that a session opens.
use crate::ended::Halt;
use allocation_core::{Core, JobSpec};
use fleet::OpenError;
use lists::Plain;
use sd_documents::Job;
use std::alloc::{AllocError, Global};

/// The allocator of these jobs.
pub(crate) fn core_of(alloc: Global, jobs: &[Job]) -> Result<Core, Halt> {
    match Core::open(alloc, specs_of(alloc, jobs)?) {
        Ok(core) => Ok(core),
        // The jobs of a configuration that was read are not refused.
        Err(OpenError::BadJobs | OpenError::Memory) => Err(AllocError.into()),
    }
}

fn specs_of(alloc: Global, jobs: &[Job]) -> Result<Vec<JobSpec>, AllocError> {
    let mut specs = Vec::with_capacity(alloc, jobs.len())?;
    for job in jobs {
        specs.push(spec_of(job)?)?;
    }
    Ok(specs)
}

fn spec_of(job: &Job) -> Result<JobSpec, AllocError> {
    let name = job.name.copy()?;
    let urls = u32::try_from(job.http_urls.len()).unwrap_or(u32::MAX);
    Ok(JobSpec {
        name,
        target_limit: job.target_limit,
        sources: urls.saturating_add(1),
    })
}
