//! The allocator as an event machine: jobs and their targets, collectors, and allocations that are
//! published only where a certificate proves them the best. It is proved for every list of events.
//!
//! Contracts see a `Core` as its state, a record of plain lists, and an event's effect as two functions: its
//! answer, and the state after it.
#![tactic(auto)]

mod certificate;
mod laws;
mod limits;
mod machine;
mod renewal;
mod report_rounds;
mod runs;

pub use fleet::{Collector, JobSpec, OpenError};
pub use fleet_events::{Answer, CollectorId, Event, Outcome, Refusal, Report, TargetId};
pub use laws::{
    answers_fit, booked_by_holders, certified_are_installed, installed_are_best,
    lists_are_disjoint, lists_are_whole, published_are_best, published_cover_most,
    spreads_are_installed, states_are_kept, with_one_all_is_as_before,
};
pub use limits::LAST_ROUND;
pub use machine::Core;
pub use renewal::{Forgotten, NotRenewed, RenewalError, Renewed};
pub use report_rounds::{MOST_REPORT_ROUNDS, ReportRounds};
pub use runs::{Stopped, run};
pub use served_lists::ServedList;
