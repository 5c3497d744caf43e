//! The allocator that the tests begin with, and events from lines.
use allocation_core::{Core, Event, JobSpec};
use fleet_events::read_event;
use lists::Text;
use std::alloc::Global;

/// Every target is reached.
pub(crate) const JOIN: &str =
    r#"{"event":"join","name":"a","reach":[{"allow":true,"test":"any"}]}"#;

pub(crate) const DISCOVER: &str =
    r#"{"event":"discover","job":"j","source":0,"targets":[{"targets":["h:1"]}]}"#;

pub(crate) const SECOND_JOIN: &str =
    r#"{"event":"join","name":"b","reach":[{"allow":true,"test":"any"}]}"#;

pub(crate) const DISCOVER_FOUR: &str =
    r#"{"event":"discover","job":"j","source":0,"targets":[{"targets":["h:1"]},{"targets":["h:2"]},{"targets":["h:3"]},{"targets":["h:4"]}]}"#;

/// The allocator of the job `j` with this limit.
pub(crate) fn core_of(alloc: Global, target_limit: u32) -> Option<Core> {
    match Text::from_str(alloc, "j") {
        Ok(name) => opened(
            alloc,
            JobSpec {
                name,
                target_limit,
                sources: 1,
            },
        ),
        Err(_) => None,
    }
}

fn opened(alloc: Global, job: JobSpec) -> Option<Core> {
    match vec![in alloc; job] {
        Ok(jobs) => Core::open(alloc, jobs).ok(),
        Err(_) => None,
    }
}

/// The event of a line.
pub(crate) fn event_in(alloc: Global, line: &str) -> Option<Event> {
    match read_event(alloc, line.as_bytes()) {
        Ok(event) => event,
        Err(_) => None,
    }
}
