//! Audits of journals: whether each begins with the renewal of the state in which the one before it ended.
//!
//! Contracts see what is written as a total function of the journals' bytes, and a journal as the state that its first line opens and
//! the one in which it ends.
#![tactic(auto)]

mod auditing;
mod checking;
mod fault;
mod first_line;
mod laws;
mod lines;
mod renewal;
mod uncovered;

pub use auditing::{Audited, audit};
pub use laws::{histories_tell, opened_are_whole};
