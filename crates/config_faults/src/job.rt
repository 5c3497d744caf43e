//! What is wrong with a job.
use crate::files::files_fault;
use crate::rules::rules_fault;
use crate::shapes::shape_fault;
use crate::sources::asking_fault;
use file_configs::with_sources_of_job;
use json_values::text_of;
use sd_documents::{Job, SdError, read_config};
use serde_json::Value;
use service_settings::duration_of;
use std::alloc::{AllocError, Global};

/// The members of a job that are durations.
const DURATIONS: [&str; 2] = ["scrape_interval", "scrape_timeout"];

/// What is wrong with the entry of a job, if something is.
pub(crate) fn fault_of(alloc: Global, job: &Value) -> Result<Option<String>, AllocError> {
    let text = text_of(alloc, &with_sources_of_job(alloc, job)?)?;
    let text = text.as_str();
    let document = format!(in alloc; "{{\"scrape_configs\":[{text}]}}")?;
    match read_config(alloc, document.as_bytes()) {
        Ok(config) => match config.jobs.as_slice() {
            [read, ..] => fault_of_read(alloc, read, job),
            [] => Ok(None),
        },
        Err(SdError::Memory) => Err(AllocError),
        Err(error) => fault_of_unread(alloc, job, &error),
    }
}

/// What is wrong with a job that is not read.
fn fault_of_unread(
    alloc: Global,
    job: &Value,
    error: &SdError,
) -> Result<Option<String>, AllocError> {
    match files_fault(alloc, job)? {
        Some(why) => Ok(Some(why)),
        None => Ok(Some(shape_fault(alloc, job, error)?)),
    }
}

/// What is wrong with a job that is read from an entry, if something is.
pub(crate) fn fault_of_read(
    alloc: Global,
    read: &Job,
    job: &Value,
) -> Result<Option<String>, AllocError> {
    if let Some(why) = rules_fault(alloc, read, job)? {
        return Ok(Some(why));
    }
    if let Some(why) = duration_fault(alloc, job)? {
        return Ok(Some(why));
    }
    if let Some(why) = files_fault(alloc, job)? {
        return Ok(Some(why));
    }
    asking_fault(alloc, read, job)
}

fn duration_fault(alloc: Global, job: &Value) -> Result<Option<String>, AllocError> {
    for name in DURATIONS.as_slice() {
        if !is_duration(job.get(*name)) {
            return Ok(Some(format!(in alloc; "{name}: no duration, as 15s or 1m30s is")?));
        }
    }
    Ok(None)
}

/// Whether a member is a duration, or left out.
pub(crate) fn is_duration(found: Option<&Value>) -> bool {
    match found {
        Some(value) => says_duration(value),
        None => true,
    }
}

fn says_duration(value: &Value) -> bool {
    match value.as_str() {
        Some(text) => duration_of(text).is_some(),
        None => false,
    }
}
