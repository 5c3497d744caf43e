//! The command `allocd agent`: its configuration, its state file, what it asks over HTTP, and its two threads. One makes turns, the other serves the
//! lists to the Prometheus beside it.
#![tactic(auto)]

mod asking;
mod command;
mod edge;
mod hearing;
mod jobs;
mod places;
mod posting;
mod running;
mod scraped;
mod state_file;
mod tokens;
mod told;

pub use command::agent;
