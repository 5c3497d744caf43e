//! Who may ask the service for what, by the head of a request. No connection, thread or time is needed here.
//!
//! Contracts see the fields of a head as the names with their values.
#![tactic(auto)]

mod admission;
mod authorizing;
mod bodies;
mod key;
mod keys;
mod sites;

pub use admission::Admission;
pub use bodies::{LONGEST_BODY, has_body};
pub use key::Key;
pub use keys::read_keys;
