//! The lists that collectors were served last, one for a collector and a job: which of them has a target, so that no target is given
//! to a collector while another may still scrape it.
//!
//! Contracts see a `ServedLists` as a record of two plain lists: whose list has a target, and the allocation that a list is of.
#![tactic(auto)]

mod laws;
mod list;
mod same;
mod served_lists;
mod slots;

pub use laws::{
    free_is_listed, growing_tells, left_out_for_another, let_go_is_forgotten, let_go_is_free,
    letting_go_tells, lists_are_disjoint, none_tell, renewed_tells, served_anew_is_free,
    serving_tells,
};
pub use list::ServedList;
pub use served_lists::ServedLists;

/// A target's number.
pub type TargetId = u32;

/// A collector's number, from 1.
pub type CollectorId = u32;
