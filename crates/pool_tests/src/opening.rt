//! What the tests open a desk with, and what its device answers.
use alloc_desk::{Desk, DeskName, Pass};
use allocation_core::{Core, Event, JobSpec};
use fleet_events::read_event;
use http_get::{FetchFault, Reply};
use lists::{List, Text};
use sd_documents::{Config, read_config};
use std::alloc::{AllocError, Global};
use std::sync::Wait;
use std::sync::ledger::Ledger;

/// The allocator of the job `j` with this limit.
pub(crate) fn core_of(alloc: Global, target_limit: u32) -> Option<Core> {
    match jobs_of(alloc, target_limit) {
        Ok(jobs) => Core::open(alloc, jobs).ok(),
        Err(_) => None,
    }
}

fn jobs_of(alloc: Global, target_limit: u32) -> Result<Vec<JobSpec>, AllocError> {
    let mut jobs = Vec::new(alloc);
    jobs.push(JobSpec {
        name: Text::from_str(alloc, "j")?,
        target_limit,
        sources: 1,
    })?;
    Ok(jobs)
}

/// The same job as its targets are asked.
pub(crate) fn config_of(alloc: Global) -> Option<Config> {
    read_config(
        alloc,
        br#"{"scrape_configs":[{"job_name":"j","params":{"m":["p"]}}]}"#,
    )
    .ok()
}

/// Every target is reached.
pub(crate) const JOIN_A: &str =
    r#"{"event":"join","name":"a","reach":[{"allow":true,"test":"any"}]}"#;

/// Submits the event of a line.
pub(crate) fn submit_line<L: Ledger, B: Ledger, N: DeskName, R: Wait>(
    rt: &R,
    alloc: Global,
    desk: &Desk<L, B, N>,
    pass: &mut Pass<L, B, N>,
    line: &str,
) -> Option<()> {
    match read_event(alloc, line.as_bytes()) {
        Ok(Some(event)) => submit(rt, desk, pass, event),
        _ => None,
    }
}

/// Submits the event.
pub(crate) fn submit<L: Ledger, B: Ledger, N: DeskName, R: Wait>(
    rt: &R,
    desk: &Desk<L, B, N>,
    pass: &mut Pass<L, B, N>,
    event: Event,
) -> Option<()> {
    match desk.submit(rt, pass, event) {
        Ok(_) => Some(()),
        Err(_) => None,
    }
}

/// An answer of this status and body.
pub(crate) fn reply_of(
    alloc: Global,
    status: u16,
    body: &[u8],
) -> Result<Result<Reply, FetchFault>, AllocError> {
    let media = Text::from_str(alloc, "text/plain")?;
    let body = List::from_vec(Vec::from_slice(alloc, body)?);
    Ok(Ok(Reply {
        status,
        media,
        body,
    }))
}
