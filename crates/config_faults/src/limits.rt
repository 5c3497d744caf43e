//! Limits that collectors join with, of jobs that there are not.
use crate::collectors::{Entry, Joining};
use crate::lines::Lines;
use logfmt::Quoted;
use serde_json::{Map, Value};
use std::alloc::{AllocError, Global};

/// Tells the limits of the collectors and patterns of a document whose jobs it does not have.
pub(crate) fn tell_limits(
    alloc: Global,
    lines: &mut Lines<'_>,
    document: &Value,
) -> Result<(), AllocError> {
    tell_limits_in(alloc, lines, document, Joining::Collectors)?;
    tell_limits_in(alloc, lines, document, Joining::Patterns)
}

fn tell_limits_in(
    alloc: Global,
    lines: &mut Lines<'_>,
    document: &Value,
    list: Joining,
) -> Result<(), AllocError> {
    for (index, entry) in list.entries_in(document).iter().enumerate() {
        if let Some(limits) = entry.get("limits").and_then(Value::as_object) {
            tell_limits_of(alloc, lines, document, list.entry(index), limits)?;
        }
    }
    Ok(())
}

/// Tells the first limit of an entry whose job there is not.
fn tell_limits_of(
    alloc: Global,
    lines: &mut Lines<'_>,
    document: &Value,
    entry: Entry,
    limits: &Map<String, Value>,
) -> Result<(), AllocError> {
    for (job, _limit) in limits.iter() {
        if !has_job(document, job.as_str()) {
            return tell_limit(alloc, lines, entry, job.as_str());
        }
    }
    Ok(())
}

fn tell_limit(
    alloc: Global,
    lines: &mut Lines<'_>,
    entry: Entry,
    job: &str,
) -> Result<(), AllocError> {
    let job = Quoted(job);
    let line = format!(in alloc; "{entry}.limits: no job has the name {job}")?;
    lines.tell(line.as_str())
}

/// Whether a job of the document has the name.
fn has_job(document: &Value, name: &str) -> bool {
    let Some(jobs) = document.get("scrape_configs").and_then(Value::as_array) else {
        return false;
    };
    for job in jobs {
        if job.get("job_name").and_then(Value::as_str) == Some(name) {
            return true;
        }
    }
    false
}
