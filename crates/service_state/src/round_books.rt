//! What was booked in a round that is over, job by job, as it is noted for the figures.
use lists::{Plain, Text};
use sd_routes::{BookCounts, JobBooks};
use std::alloc::{AllocError, Global};

/// A job, and what was booked of it in a round.
#[derive(Drop)]
pub struct JobSums {
    pub name: Text,
    pub counts: BookCounts,
}

const NOTHING: BookCounts = BookCounts {
    up: 0,
    down: 0,
    samples: 0,
    missing: None,
};

/// What was booked in a round, of each job in the order of the configuration. Nothing where none is over.
#[derive(Drop)]
pub struct RoundBooks {
    pub jobs: Vec<JobSums>,
}

impl RoundBooks {
    /// Those where no round is over.
    pub(crate) fn none(alloc: Global) -> RoundBooks {
        RoundBooks {
            jobs: Vec::new(alloc),
        }
    }

    /// Those of these jobs, in their order.
    pub fn of_jobs(alloc: Global, booked: &[JobBooks]) -> Result<RoundBooks, AllocError> {
        let mut jobs = Vec::with_capacity(alloc, booked.len())?;
        match push_sums(&mut jobs, booked) {
            Ok(()) => Ok(RoundBooks { jobs }),
            Err(refused) => {
                drop(jobs);
                Err(refused)
            }
        }
    }

    pub(crate) fn copy(&self, alloc: Global) -> Result<RoundBooks, AllocError> {
        let mut jobs = Vec::with_capacity(alloc, self.jobs.len())?;
        match push_copies(&mut jobs, self.jobs.as_slice()) {
            Ok(()) => Ok(RoundBooks { jobs }),
            Err(refused) => {
                drop(jobs);
                Err(refused)
            }
        }
    }

    /// Those of the job of a name, which mostly stands at this place.
    pub(crate) fn of_job(&self, place: usize, name: &str) -> BookCounts {
        if let Some(job) = self.jobs.get(place) {
            if job.name.as_str() == name {
                return job.counts;
            }
        }
        for job in &self.jobs {
            if job.name.as_str() == name {
                return job.counts;
            }
        }
        NOTHING
    }
}

fn push_sums(jobs: &mut Vec<JobSums>, booked: &[JobBooks]) -> Result<(), AllocError> {
    for job in booked {
        let name = job.job.copy()?;
        jobs.push(JobSums {
            name,
            counts: job.counts,
        })?;
    }
    Ok(())
}

fn push_copies(jobs: &mut Vec<JobSums>, copied: &[JobSums]) -> Result<(), AllocError> {
    for job in copied {
        let name = job.name.copy()?;
        jobs.push(JobSums {
            name,
            counts: job.counts,
        })?;
    }
    Ok(())
}
