//! What pages show of an allocator at a moment, as rows and numbers: its jobs, collectors, targets and books, those that are handed over, and
//! what was noted of sources and allocations. No lock, no desk, no clock; how a row is written is `sd_routes`' and `service_pages`'.
//!
//! Contracts say of which rounds is told what was booked, which collector is meant, which entry an allocation has, and how many targets are
//! found at the most. They say nothing of numbers for people.
#![tactic(auto)]

mod allocation_rows;
mod booked;
mod collectors;
mod figures;
mod found;
mod found_targets;
mod handing_over;
mod one_collector;
mod one_job;
mod sources;
mod target_rows;
mod uncovered;

pub use allocation_rows::allocations_text;
pub use booked::{books_asked, job_books};
pub use collectors::{collector_meant, collector_rows};
pub use figures::figures_of;
pub use found::{Found, LOOKED_AT_ONCE, MOST_FOUND, found_of, matching};
pub use found_targets::{FoundState, found_state};
pub use handing_over::{HandingOver, targets_handing_over};
pub use one_collector::{CollectorState, collector_state};
pub use one_job::{JobState, held_by_name, job_state};
pub use sources::source_rows;
pub use uncovered::{Uncovered, uncovered_of};
