//! Standard error without waiting for its reader: lines go through a bounded queue, and those for which it has no room are lost and
//! counted.
#![tactic(auto)]

mod log_queue;
mod queued;
mod writing;

pub use log_queue::LogQueue;
pub use queued::Queued;
pub use writing::start_log;
