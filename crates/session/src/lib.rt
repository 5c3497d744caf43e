//! A session: the whole loop of discoveries, allocations and scrapes over a few rounds on one machine. Here are the document that
//! says what it has, and the lines that it writes.
//!
//! Contracts see the document as the data that `serde_json` reads of it, and a line as its bytes.
#![tactic(auto)]

mod document;
mod error;
mod joining;
mod lines;
mod pages;
mod sums;

pub use document::{MOST_ROUNDS, Session, read_session};
pub use error::SessionError;
pub use lines::{round_line, source_line, total_line};
pub use pages::Page;
pub use sums::{Sums, sums_of};
