//! Published allocations, and who took which. Numbers of allocations go from 1 to 4,294,967,295, and the
//! allocation of number 0 is empty.
//!
//! Contracts see a `Holders` as a record of two plain lists: all that was published, and the last number
//! that each collector took.
#![tactic(auto)]

mod error;
mod holders;
mod rows;
mod spans;

pub use error::HoldersError;
pub use holders::{Holders, LAST_NUMBER};

/// A target's number. Numbers are given densely from 0: the memory for spans grows with the greatest.
pub type TargetId = u32;

/// A collector's number, from 1.
pub type CollectorId = u32;
