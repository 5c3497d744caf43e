//! The fleet that goes on under a new list of jobs.
//!
//! What nobody needs is forgotten: targets of jobs that went, and those that are neither live nor held nor in a list that was
//! served. The rest is numbered anew in its old order, and the current allocation and the slots are carried over in the new
//! numbers.
#![tactic(auto)]

mod collectors;
mod error;
mod known;
mod listing;
mod pairs;
mod renewing;
mod slots;
mod survivors;

pub use error::RenewError;
pub use renewing::{RenewedFleet, fleet_refusal, renew_fleet};
