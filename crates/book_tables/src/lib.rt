//! The books of journals, target by target: what was booked of each target that a journal knows.
//!
//! Contracts see what is written as a total function of the journals' bytes.
#![tactic(auto)]

mod journal;
mod row;
mod table;

pub use table::{Table, books_table};
