//! Laws of renewals: what goes on across one, and histories of stretches of events with renewals between them.
#![tactic(auto)]

mod laws;

pub use laws::{histories_are_good, renewals_continue};
