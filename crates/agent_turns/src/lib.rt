//! A turn of an agent that stands between the allocator and a Prometheus: it looks at its lists, reports what was scraped, and takes a list where one
//! is due. What was told is written down before a report is posted.
//!
//! It has no handle: what lies outside is a trait. Contracts see what is done there as acts, one after the other.
#![tactic(auto)]

mod following;
mod outside;
mod reporting;
mod turning;

pub use following::lets_go;
pub use outside::{Heard, Outside, Posted};
pub use reporting::report_all;
pub use turning::{LONGEST_FOLLOWING, turn};
