//! How sources and targets are asked.
use crate::numbers::{first_part, first_word, number};
use http_get::{Get, address_of, get_in, get_of_url};
use json_values::parse;
use label_sets::{Finished, LabelError, Labels, Target, finish};
use sd_documents::{Job, read_config};
use serde_json::{Map, Value};
use std::alloc::{AllocError, Global};

const NOT_ASKED: &str = "not asked";

/// The address that a text says.
pub(crate) fn host(alloc: Global, text: &str) -> Result<String, AllocError> {
    match address_of(text) {
        Some(address) => format!(in alloc; "{address}"),
        None => String::from_str(alloc, "no address"),
    }
}

/// How the source at a URL is asked: its address and path.
pub(crate) fn url(alloc: Global, text: &str) -> Result<String, AllocError> {
    match get_of_url(alloc, text) {
        Ok(get) => written(alloc, &get),
        Err(error) => Err(error),
    }
}

pub(crate) fn written(alloc: Global, get: &Get) -> Result<String, AllocError> {
    format!(in alloc; "{} {}", get.address.as_str(), get.path.as_str())
}

/// How a target is asked, as `PARAMS | LABELS`.
pub(crate) fn get(alloc: Global, text: &str) -> Result<String, AllocError> {
    let (params, labels) = first_part(text);
    let config = format!(in alloc;
        "{{\"scrape_configs\":[{{\"job_name\":\"j\",\"params\":{params}}}]}}"
    )?;
    by_config(alloc, config.as_str(), 0, labels)
}

/// How a target of the job at a place of a configuration is asked, as `PLACE CONFIGURATION | LABELS`.
pub(crate) fn get_in_job(alloc: Global, text: &str) -> Result<String, AllocError> {
    let (config, labels) = first_part(text);
    let (place, config) = first_word(config);
    by_config(alloc, config, number(place) as usize, labels)
}

fn by_config(alloc: Global, config: &str, job: usize, labels: &str) -> Result<String, AllocError> {
    match read_config(alloc, config.as_bytes()) {
        Ok(config) => {
            let line = by_jobs(alloc, config.jobs.as_slice(), job, labels);
            drop(config);
            line
        }
        Err(error) => format!(in alloc; "{error}"),
    }
}

fn by_jobs(alloc: Global, jobs: &[Job], job: usize, labels: &str) -> Result<String, AllocError> {
    match parse(alloc, labels.as_bytes())? {
        Some(Value::Object(members)) => {
            let labels = labels_of(alloc, &members);
            drop(members);
            by_labels(alloc, jobs, job, labels)
        }
        other => {
            drop(other);
            String::from_str(alloc, "no labels")
        }
    }
}

fn by_labels(
    alloc: Global,
    jobs: &[Job],
    job: usize,
    labels: Result<Labels, LabelError>,
) -> Result<String, AllocError> {
    match labels {
        Ok(labels) => {
            let line = of_labels(alloc, jobs, job, &labels);
            drop(labels);
            line
        }
        Err(error) => refused(alloc, error),
    }
}

fn labels_of(alloc: Global, members: &Map<String, Value>) -> Result<Labels, LabelError> {
    let mut labels = Labels::new(alloc);
    match set_all(&mut labels, members) {
        Ok(()) => Ok(labels),
        Err(error) => {
            drop(labels);
            Err(error)
        }
    }
}

fn set_all(labels: &mut Labels, members: &Map<String, Value>) -> Result<(), LabelError> {
    for (name, value) in members.iter() {
        labels.set(name.as_str(), value.as_str().unwrap_or(""))?;
    }
    Ok(())
}

fn refused(alloc: Global, error: LabelError) -> Result<String, AllocError> {
    match error {
        LabelError::BadLabelName => String::from_str(alloc, "no label name"),
        LabelError::Memory => Err(AllocError),
    }
}

fn of_labels(
    alloc: Global,
    jobs: &[Job],
    job: usize,
    labels: &Labels,
) -> Result<String, AllocError> {
    match finish(alloc, labels)? {
        Finished::Target(target) => {
            let line = of_target(alloc, jobs, job, &target);
            drop(target);
            line
        }
        Finished::NoAddress => String::from_str(alloc, "no address"),
    }
}

fn of_target(
    alloc: Global,
    jobs: &[Job],
    job: usize,
    target: &Target,
) -> Result<String, AllocError> {
    asked(alloc, get_in(alloc, jobs, job, target)?)
}

/// The address and path where it is asked.
pub(crate) fn asked(alloc: Global, get: Option<Get>) -> Result<String, AllocError> {
    match get {
        Some(get) => written(alloc, &get),
        None => String::from_str(alloc, NOT_ASKED),
    }
}
