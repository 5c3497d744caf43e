//! The assignment problem of a fleet and a preceding allocation, and the way back from a plan to an allocation.
//!
//! Contracts see pairs of a target and a collector, and say of them which are sound and which the best, without items and bins.
//! A feasible plan is optimal for the instance exactly if its allocation is a best one: `optimal_is_best`. The allocation of a plan
//! that is the best within caps is the best within them: `best_within_is_carried_over`.
#![tactic(auto)]

mod allocation;
mod bin;
mod instance;
mod laws;
mod rows;
mod table;

pub use allocation::build_allocation;
pub use instance::build_instance;
pub use laws::{
    allocations_are_once, best_cover_most, best_within_is_carried_over, feasible_are_carried_over,
    instances_are_problems, optimal_is_best, plan_laws,
};
