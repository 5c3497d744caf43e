//! The jobs of an allocator beside those of a configuration.
ghost use Rattle.std.specs.Prelude.{◌≡◌, map};
ghost use Rattle.sd_documents.specs.Config.{job_data};
ghost use Rattle.replay_lines.specs.Configurations.{same_job, same_jobs, spec_of};

use fleet::JobSpec;
use sd_documents::Job;

/// Whether these are the jobs of a configuration, in its order.
pub fn are_jobs_of(specs: &[JobSpec], jobs: &[Job]) -> bool
    ensures { result ≡ same_jobs specs.now (map spec_of (map job_data jobs.now)) }
{
    if specs.len() != jobs.len() {
        return false;
    }
    for i in 0..specs.len() {
        if !is_job_of(&specs[i], &jobs[i]) {
            return false;
        }
    }
    true
}

fn is_job_of(spec: &JobSpec, job: &Job) -> bool
    ensures { result ≡ same_job spec.now (spec_of (job_data job.now)) }
{
    spec.name.as_str() == job.name.as_str()
        && spec.target_limit == job.target_limit
        && spec.sources as usize == 1 + job.http_urls.as_slice().len()
}
