//! A renewed core as one line of JSON, in both directions.
//!
//! Contracts see a line as its bytes and a core as its state. What a line says is a function of its bytes: a state, or the first
//! fault.
#![tactic(auto)]

mod collector;
mod error;
mod fleet_parts;
mod history;
mod job;
mod known_target;
mod laws;
mod part;
mod reading;
mod report_rounds;
mod restoring;
mod writing;

pub use error::HistoryError;
pub use laws::renewed_read_back;
pub use reading::{history_in, read_history};
pub use report_rounds::read_report_rounds;
pub use writing::{history_value, write_history};
