//! Targets beside their numbers, and what a collector holds of a job: what a desk shows and a page tells.
#![tactic(auto)]

mod numbered_target;
mod share;

pub use numbered_target::NumberedTarget;
pub use share::Share;
