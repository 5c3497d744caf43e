//! Which jobs there are.
use agent_documents::{DocumentError, Part};
use json_values::parse;
use lists::Text;
use serde_json::{Map, Value};
use std::alloc::{AllocError, Global};

/// A job, and where its lists are asked for.
#[derive(Drop)]
pub struct JobLink {
    pub job: Text,
    pub link: Text,
}

/// Reads which jobs there are, in the order of the document.
pub fn read_jobs(alloc: Global, bytes: &[u8]) -> Result<Vec<JobLink>, DocumentError> {
    match parse(alloc, bytes)? {
        Some(value) => jobs_in(alloc, &value),
        None => Err(DocumentError::NotJson),
    }
}

fn jobs_in(alloc: Global, value: &Value) -> Result<Vec<JobLink>, DocumentError> {
    match value.as_object() {
        Some(jobs) => links_of(alloc, jobs),
        None => Err(DocumentError::Shape(Part::Answer)),
    }
}

fn links_of(alloc: Global, jobs: &Map<String, Value>) -> Result<Vec<JobLink>, DocumentError> {
    let mut links = Vec::new(alloc);
    for (job, value) in jobs.iter() {
        match link_in(value) {
            Some(link) => links.push(link_of(alloc, job.as_str(), link)?)?,
            None => return Err(DocumentError::Shape(Part::Answer)),
        }
    }
    Ok(links)
}

fn link_in(value: &Value) -> Option<&str> {
    value.get("_link")?.as_str()
}

fn link_of(alloc: Global, job: &str, link: &str) -> Result<JobLink, AllocError> {
    Ok(JobLink {
        job: Text::from_str(alloc, job)?,
        link: Text::from_str(alloc, link)?,
    })
}
