//! What is wrong with the jobs.
use crate::job::{fault_of, fault_of_read};
use crate::lines::Lines;
use file_configs::with_sources;
use json_values::{member, text_of};
use lists::Text;
use logfmt::Quoted;
use sd_documents::{Config, Limit, SdError, read_config};
use serde_json::Value;
use std::alloc::{AllocError, Global};

/// How many jobs' faults are told at most.
const MOST_FAULTS: usize = 16;

/// Tells what is wrong with the jobs of a document, a line each, and then what is wrong with all of them together.
pub(crate) fn tell_jobs(
    alloc: Global,
    lines: &mut Lines<'_>,
    value: &Value,
) -> Result<(), AllocError> {
    let Some(found) = value.get("scrape_configs") else {
        return Ok(());
    };
    match found.as_array() {
        Some(entries) => tell_document(alloc, lines, value, entries.as_slice()),
        None => lines.tell("scrape_configs: no list"),
    }
}

/// Tells what is wrong with the entries of a document, whose sources of files are read as sources with a URL.
fn tell_document(
    alloc: Global,
    lines: &mut Lines<'_>,
    value: &Value,
    entries: &[Value],
) -> Result<(), AllocError> {
    let document = text_of(alloc, &with_sources(alloc, value)?)?;
    tell_entries(alloc, lines, document.as_str().as_bytes(), entries)
}

fn tell_entries(
    alloc: Global,
    lines: &mut Lines<'_>,
    document: &[u8],
    entries: &[Value],
) -> Result<(), AllocError> {
    match read_config(alloc, document) {
        Ok(config) => tell_read(alloc, lines, &config, entries),
        Err(SdError::Memory) => Err(AllocError),
        Err(error) => {
            tell_each(alloc, lines, entries)?;
            tell_together(alloc, lines, &error)
        }
    }
}

/// Tells what is wrong with jobs that are read as such.
fn tell_read(
    alloc: Global,
    lines: &mut Lines<'_>,
    config: &Config,
    entries: &[Value],
) -> Result<(), AllocError> {
    let mut told: usize = 0;
    for (place, (job, entry)) in config.jobs.as_slice().iter().zip(entries).enumerate() {
        if told == MOST_FAULTS {
            break;
        }
        if let Some(why) = fault_of_read(alloc, job, entry)? {
            tell_named(alloc, lines, place, entry, why.as_str())?;
            told = told.saturating_add(1);
        }
    }
    Ok(())
}

/// Tells what is wrong with each entry, read by itself.
fn tell_each(alloc: Global, lines: &mut Lines<'_>, entries: &[Value]) -> Result<(), AllocError> {
    let mut told: usize = 0;
    for (place, entry) in entries.iter().enumerate() {
        if told == MOST_FAULTS {
            break;
        }
        if let Some(why) = fault_of(alloc, entry)? {
            tell_named(alloc, lines, place, entry, why.as_str())?;
            told = told.saturating_add(1);
        }
    }
    Ok(())
}

fn tell_named(
    alloc: Global,
    lines: &mut Lines<'_>,
    place: usize,
    entry: &Value,
    why: &str,
) -> Result<(), AllocError> {
    let line = named(alloc, place, entry, why)?;
    lines.tell(line.as_str())
}

/// The line of a fault of the job at a place.
fn named(alloc: Global, place: usize, job: &Value, why: &str) -> Result<String, AllocError> {
    let name: Option<Text> = member(alloc, job, "job_name")?;
    match &name {
        Some(name) => {
            let name = Quoted(name.as_str());
            format!(in alloc; "scrape_configs[{place}], job {name}: {why}")
        }
        None => format!(in alloc; "scrape_configs[{place}]: {why}"),
    }
}

/// Tells what is wrong with all jobs together, where that is what was found first.
fn tell_together(alloc: Global, lines: &mut Lines<'_>, error: &SdError) -> Result<(), AllocError> {
    match error {
        SdError::RepeatedJob(job) => {
            let line = format!(in alloc;
                "scrape_configs[{job}].job_name: the name of an earlier job"
            )?;
            lines.tell(line.as_str())
        }
        SdError::TooMany(Limit::Jobs) => lines.tell("scrape_configs: too many jobs"),
        _ => Ok(()),
    }
}
