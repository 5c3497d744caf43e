//! The allocator that the first line of a replay opens.
ghost use Rattle.std.specs.Prelude.{◌≡◌, IfOk, Ok, All, codes, map, option_map};
ghost use Rattle.serde_json.specs.Find.{get};
ghost use Rattle.serde_json.specs.View.{view};
ghost use Rattle.allocation_core.specs.State.{with_rounds as booking};
ghost use Rattle.core_history.specs.History.{history_in};
ghost use Rattle.core_history.specs.Rounds.{report_rounds_in};
ghost use Rattle.sd_documents.specs.Config.{job_data};
ghost use Rattle.sd_documents.specs.Limits.{IsWithinLimits};
ghost use Rattle.replay_lines.specs.Configurations.{spec_of as spec_of_data, jobs_in as jobs_said, opened, opened_by, opened_from, opened_in, opened_with, resumed_with, same_job, same_jobs};

use allocation_core::{Core, ReportRounds};
use core_history::{HistoryError, history_in, read_report_rounds};
use fleet::{JobSpec, OpenError};
use json_values::parse;
use lists::Plain;
use sd_documents::{Job, SdError, read_config};
use serde_json::Value;
use std::alloc::{AllocError, Global};

/// The allocator that the document of a configuration opens.
#[tactic(auto, unfolding(crate::specs::Configurations::opened))]
pub(crate) fn open_core(alloc: Global, line: &[u8]) -> Result<Option<Core>, AllocError>
    ensures { IfOk result (λ o. o ≡ opened line.now) }
{
    match jobs_in(alloc, line)? {
        Some(jobs) => open_line(alloc, line, jobs),
        None => Ok(None),
    }
}

/// The allocator of a line whose jobs are these.
fn open_line(alloc: Global, line: &[u8], jobs: Vec<JobSpec>) -> Result<Option<Core>, AllocError>
    ensures { IfOk result (λ o. o ≡ opened_in line.now jobs.items) }
{
    match parse(alloc, line) {
        Ok(Some(value)) => {
            let opened = open_value(alloc, &value, jobs);
            drop(value);
            opened
        }
        Ok(None) => {
            let opened = open_with(alloc, jobs)?;
            Ok(with_rounds(opened, ReportRounds::least()))
        }
        Err(error) => {
            drop(jobs);
            Err(error)
        }
    }
}

/// The allocator of a line that is JSON.
fn open_value(alloc: Global, value: &Value, jobs: Vec<JobSpec>) -> Result<Option<Core>, AllocError>
    ensures { IfOk result (λ o. o ≡ opened_by (report_rounds_in (view value.now)) (opened_from (get (codes "history") (view value.now)) jobs.items)) }
{
    match read_report_rounds(alloc, value) {
        Ok(Some(report_rounds)) => {
            let opened = open_history(alloc, value, jobs)?;
            Ok(with_rounds(opened, report_rounds))
        }
        Ok(None) => {
            drop(jobs);
            Ok(None)
        }
        Err(error) => {
            drop(jobs);
            Err(error)
        }
    }
}

/// The allocator, if there is one, that books reports of so many rounds.
fn with_rounds(opened: Option<Core>, report_rounds: ReportRounds) -> Option<Core>
    ensures { result ≡ option_map (booking report_rounds) opened }
{
    match opened {
        Some(core) => Some(core.with_report_rounds(report_rounds)),
        None => None,
    }
}

fn open_history(
    alloc: Global,
    value: &Value,
    jobs: Vec<JobSpec>,
) -> Result<Option<Core>, AllocError>
    ensures { IfOk result (λ o. o ≡ opened_from (get (codes "history") (view value.now)) jobs.items) }
{
    match value.get("history") {
        Some(history) => {
            let opened = resume(alloc, history, jobs.as_slice());
            drop(jobs);
            opened
        }
        None => open_with(alloc, jobs),
    }
}

/// The allocator that goes on from a history, if the jobs are its own.
fn resume(alloc: Global, history: &Value, jobs: &[JobSpec]) -> Result<Option<Core>, AllocError>
    ensures { IfOk result (λ o. o ≡ resumed_with jobs.now (history_in (view history.now))) }
{
    match history_in(alloc, history) {
        Ok(core) => Ok(with_jobs(core, jobs)),
        Err(HistoryError::Memory) => Err(AllocError),
        Err(_) => Ok(None),
    }
}

fn with_jobs(core: Core, jobs: &[JobSpec]) -> Option<Core>
    ensures { result ≡ resumed_with jobs.now (Ok core) }
{
    if same_jobs(core.fleet().jobs(), jobs) {
        return Some(core);
    }
    drop(core);
    None
}

fn same_jobs(jobs: &[JobSpec], others: &[JobSpec]) -> bool
    ensures { result ≡ same_jobs jobs.now others.now }
{
    if jobs.len() != others.len() {
        return false;
    }
    for i in 0..jobs.len() {
        if !same_job(&jobs[i], &others[i]) {
            return false;
        }
    }
    true
}

fn same_job(job: &JobSpec, other: &JobSpec) -> bool
    ensures { result ≡ same_job job.now other.now }
{
    job.name.as_str() == other.name.as_str()
        && job.target_limit == other.target_limit
        && job.sources == other.sources
}

fn open_with(alloc: Global, jobs: Vec<JobSpec>) -> Result<Option<Core>, AllocError>
    ensures { IfOk result (λ o. o ≡ opened_with jobs.items) }
{
    match Core::open(alloc, jobs) {
        Ok(core) => Ok(Some(core)),
        Err(OpenError::BadJobs) => Ok(None),
        Err(OpenError::Memory) => Err(AllocError),
    }
}

/// The jobs of a configuration.
fn jobs_in(alloc: Global, line: &[u8]) -> Result<Option<Vec<JobSpec>>, AllocError>
    ensures { IfOk result (λ o. option_map (λ v. v.items) o ≡ jobs_said line.now) }
{
    match read_config(alloc, line) {
        Ok(config) => {
            let specs = specs_of(alloc, config.jobs.as_slice());
            drop(config);
            Ok(Some(specs?))
        }
        Err(SdError::Memory) => Err(AllocError),
        Err(_) => Ok(None),
    }
}

fn specs_of(alloc: Global, jobs: &[Job]) -> Result<Vec<JobSpec>, AllocError>
    requires { All IsWithinLimits jobs.now }
    ensures { IfOk result (λ v. v.items ≡ map spec_of_data (map job_data jobs.now)) }
{
    let mut specs = Vec::with_capacity(alloc, jobs.len())?;
    for job in jobs {
        specs.push(spec_of(job)?)?;
    }
    Ok(specs)
}

fn spec_of(job: &Job) -> Result<JobSpec, AllocError>
    requires { IsWithinLimits job.now }
    ensures { IfOk result (λ s. s ≡ spec_of_data (job_data job.now)) }
{
    let name = job.name.copy()?;
    Ok(JobSpec {
        name,
        target_limit: job.target_limit,
        sources: 1 + job.http_urls.len() as u32,
    })
}
