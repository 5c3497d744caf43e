//! The jobs of a configuration, each with a name of its own.
ghost use Rattle.std.specs.Prelude.{◌≡◌, [], map};
ghost use Rattle.serde_json.specs.View.{view, items_view};
ghost use Rattle.sd_documents.specs.Reading.{Gives};
ghost use Rattle.sd_documents.specs.Config.{job_data, jobs_from, with_job, is_taken as is_taken_by};

use crate::config::Job;
use crate::config::entry::job_in;
use crate::error::SdError;
use lists::List;
use serde_json::Value;
use std::alloc::Global;

/// The jobs of all entries.
pub(crate) fn jobs_in(alloc: Global, entries: &[Value]) -> Result<List<Job>, SdError>
    ensures { Gives (λ jobs. map job_data jobs) result (jobs_from 0 [] (items_view entries.now)) }
{
    let mut jobs = List::new(alloc);
    for (index, entry) in entries.iter().enumerate() {
        add_job(alloc, &mut jobs, index, entry)?;
    }
    Ok(jobs)
}

/// Adds the job of one more entry.
fn add_job(alloc: Global, jobs: &mut List<Job>, index: usize, entry: &Value) -> Result<(), SdError>
    ensures { Gives (λ _. map job_data jobs.new) result (with_job index (map job_data jobs.old) (view entry.now)) }
{
    let job = job_in(alloc, index, entry)?;
    if is_taken(jobs.as_slice(), job.name.as_str()) {
        return Err(SdError::RepeatedJob(index));
    }
    jobs.push(job)?;
    Ok(())
}

/// Whether a job has the name.
fn is_taken(jobs: &[Job], name: &str) -> bool
    ensures { result ≡ is_taken_by (map job_data jobs.now) name.now }
{
    for job in jobs {
        if job.name.as_str() == name {
            return true;
        }
    }
    false
}
