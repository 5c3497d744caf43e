//! What an agent's Prometheus is served.
use crate::counts::Counts;
use bytes::Bytes;
use lists::Text;
use std::alloc::{AllocError, Global};
use std::sync::{Mutex, Wait};

/// The list of a job.
#[derive(Drop)]
pub struct JobList {
    pub job: Text,
    pub list: Vec<u8>,
}

/// What an agent's Prometheus is served, and what the agent counts.
#[derive(Drop)]
pub struct ListStore {
    lists: Mutex<Lists>,
    pub counts: Counts,
}

#[derive(Drop)]
struct Lists {
    /// Whether anything is known of what is to be served.
    is_known: bool,
    /// The time from which on the lists are empty.
    until: Option<u64>,
    jobs: Vec<JobList>,
}

/// What is served of a job.
#[derive(Drop)]
pub(crate) enum Found {
    List(Bytes),
    /// Nothing is known as yet: Prometheus is to keep what it has.
    Unknown,
    /// There is no such job.
    NoJob,
}

impl ListStore {
    /// Nothing is known as yet.
    pub fn new(alloc: Global) -> ListStore {
        ListStore {
            lists: Mutex::new(Lists {
                is_known: false,
                until: None,
                jobs: Vec::new(alloc),
            }),
            counts: Counts::new(),
        }
    }

    /// These lists are served, up to a time if there is one, and from then on empty lists.
    pub fn put(&self, rt: &impl Wait, until: Option<u64>, jobs: Vec<JobList>) {
        let mut lists = self.lists.lock(rt);
        lists.is_known = true;
        lists.until = until;
        lists.jobs = jobs;
    }

    /// What is served of a job at a time.
    pub(crate) fn find(
        &self,
        rt: &impl Wait,
        alloc: Global,
        job: &str,
        now: u64,
    ) -> Result<Found, AllocError> {
        self.lists.lock(rt).find(alloc, job, now)
    }
}

impl Lists {
    fn find(&self, alloc: Global, job: &str, now: u64) -> Result<Found, AllocError> {
        if !self.is_known {
            return Ok(Found::Unknown);
        }
        match list_of(self.jobs.as_slice(), job) {
            Some(_) if self.is_over(now) => Ok(Found::List(Bytes::from_static(b"[]"))),
            Some(list) => Ok(Found::List(Bytes::copy_from_slice(alloc, list)?)),
            None => Ok(Found::NoJob),
        }
    }

    /// Whether the lists are empty at a time.
    fn is_over(&self, now: u64) -> bool {
        match self.until {
            Some(until) => until <= now,
            None => false,
        }
    }
}

/// The list of a job.
fn list_of<'a>(jobs: &'a [JobList], job: &str) -> Option<&'a [u8]> {
    for one in jobs {
        if one.job.as_str() == job {
            return Some(one.list.as_slice());
        }
    }
    None
}
