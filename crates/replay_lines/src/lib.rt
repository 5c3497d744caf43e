//! Replays: a text whose first line is a configuration and whose further lines are events, and the text of the answers.
//!
//! Contracts see what is written as a total function of the input's bytes, and so the state that they lead to.
#![tactic(auto)]

mod configuration;
mod jobs;
mod laws;
mod line;
mod resuming;
mod run;

pub use jobs::are_jobs_of;
pub use laws::{replays_are_runs, replays_are_runs_of_opened, resumes_where_done};
pub use resuming::{Damage, Resumption, resume};
pub use run::{Ended, replay};
