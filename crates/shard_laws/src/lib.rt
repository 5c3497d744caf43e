//! Laws of fleets in parts: when an allocator for each part of the jobs finds what one for all of them would.
#![tactic(auto)]

mod laws;

pub use laws::{best_is_best_in_parts, best_within_is_so_in_parts};
