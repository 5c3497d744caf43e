//! Why a command that serves ended or did not begin, what is told of it, and its exit status.
#![tactic(auto)]

mod fault;
mod telling;

pub use fault::Fault;
pub use telling::{status_of, tell};
