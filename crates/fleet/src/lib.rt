//! Who and what there is: jobs, the targets that their sources list, and the collectors.
//!
//! Contracts see a `Fleet` as a record of plain lists. A source's list is replaced whole, a number that was given to a target
//! or to a collector is never given again, and what is refused changes nothing.
#![tactic(auto)]

mod collector;
mod error;
mod fleet;
mod fleet_parts;
mod job;
mod jobs;
mod known_target;
mod laws;
mod limits;
mod listing;
mod live;
mod outcome;
mod parts;
mod restoring;
mod share_limit;

pub use collector::Collector;
pub use error::{OpenError, PartsError};
pub use fleet::Fleet;
pub use fleet_parts::FleetParts;
pub use job::JobSpec;
pub use jobs::{are_jobs, has_job, job_named};
pub use known_target::KnownTarget;
pub use laws::targets_are_entered;
pub use limits::{
    LAST_COLLECTOR, MOST_BINS, MOST_COLLECTORS, MOST_JOBS, MOST_KNOWN_TARGETS, MOST_LIVE_TARGETS,
};
pub use outcome::{
    DrainRefusal, Draining, JoinRefusal, Joining, Limiting, LimitsRefusal, ListRefusal, Listing,
};
