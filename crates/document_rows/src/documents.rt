//! Configurations, target groups, instances and certificates.
use crate::answers::READ;
use price_certificate::{
    DocumentError, Instance, Plan, Verdict, check, read_document, read_instance,
};
use sd_documents::{Config, Job, SdError, read_config, read_groups, scrape_configs_text};
use std::alloc::{AllocError, Global};

/// A certificate document, which is checked where it is read.
pub(crate) fn certificate(alloc: Global, bytes: &[u8]) -> Result<String, AllocError> {
    match read_document(alloc, bytes) {
        Ok((instance, plan)) => {
            let line = judged(alloc, &instance, &plan);
            drop((instance, plan));
            line
        }
        Err(error) => not_read(alloc, &error),
    }
}

fn judged(alloc: Global, instance: &Instance, plan: &Plan) -> Result<String, AllocError> {
    match check(alloc, instance, plan)? {
        Verdict::Best {
            covered,
            left,
            moved,
        } => format!(in alloc; "best {covered} {left} {moved}"),
        Verdict::Refused(fault) => fault.line(alloc),
    }
}

/// An instance: how many items it has.
pub(crate) fn instance(alloc: Global, bytes: &[u8]) -> Result<String, AllocError> {
    match read_instance(alloc, bytes) {
        Ok(instance) => {
            let items = instance.items();
            drop(instance);
            format!(in alloc; "{READ} {items}")
        }
        Err(error) => not_read(alloc, &error),
    }
}

fn not_read(alloc: Global, error: &DocumentError) -> Result<String, AllocError> {
    match error {
        DocumentError::Memory => Err(AllocError),
        error => format!(in alloc; "{error}"),
    }
}

/// A configuration: the outlines of its jobs, and the text of its scrape configurations.
pub(crate) fn config(alloc: Global, bytes: &[u8]) -> Result<String, AllocError> {
    match read_config(alloc, bytes) {
        Ok(config) => {
            let line = outline(alloc, &config);
            drop(config);
            line
        }
        Err(error) => refused_by(alloc, &error),
    }
}

/// The outlines of a configuration's jobs alone.
pub(crate) fn config_jobs(alloc: Global, bytes: &[u8]) -> Result<String, AllocError> {
    match read_config(alloc, bytes) {
        Ok(config) => {
            let line = jobs_outline(alloc, config.jobs.as_slice());
            drop(config);
            line
        }
        Err(error) => refused_by(alloc, &error),
    }
}

fn outline(alloc: Global, config: &Config) -> Result<String, AllocError> {
    match jobs_outline(alloc, config.jobs.as_slice()) {
        Ok(jobs) => with_kept(alloc, jobs, config),
        Err(error) => Err(error),
    }
}

fn jobs_outline(alloc: Global, jobs: &[Job]) -> Result<String, AllocError> {
    let mut text = String::from_str(alloc, READ)?;
    for job in jobs {
        add_job(alloc, &mut text, job)?;
    }
    Ok(text)
}

fn add_job(alloc: Global, text: &mut String, job: &Job) -> Result<(), AllocError> {
    match job_outline(alloc, job) {
        Ok(line) => text.push_str(line.as_str()),
        Err(error) => Err(error),
    }
}

/// The name, the path, the scheme and the limit of a job, and how many groups, URLs, parameters and rules it has.
fn job_outline(alloc: Global, job: &Job) -> Result<String, AllocError> {
    let name = job.name.as_str();
    let path = job.metrics_path.as_str();
    let scheme = job.scheme.as_str();
    let limit = job.target_limit;
    let groups = job.static_groups.len();
    let urls = job.http_urls.len();
    let params = job.params.len();
    let rules = job.rules.len();
    format!(in alloc; " {name} {path} {scheme} {limit} {groups} {urls} {params} {rules};")
}

fn with_kept(alloc: Global, jobs: String, config: &Config) -> Result<String, AllocError> {
    match scrape_configs_text(alloc, config) {
        Ok(kept) => format!(in alloc; "{jobs} {}", kept.as_str()),
        Err(error) => Err(error),
    }
}

/// A list of target groups.
pub(crate) fn groups(alloc: Global, bytes: &[u8]) -> Result<String, AllocError> {
    match read_groups(alloc, bytes) {
        Ok(groups) => {
            drop(groups);
            String::from_str(alloc, READ)
        }
        Err(error) => refused_by(alloc, &error),
    }
}

pub(crate) fn refused_by(alloc: Global, error: &SdError) -> Result<String, AllocError> {
    match error {
        SdError::Memory => Err(AllocError),
        error => format!(in alloc; "{error:?}"),
    }
}
