//! Who reaches what: the names of collectors, the rules by which a collector reaches a target, and the limits of its own.
//!
//! Contracts see a collector's name as its bytes, a reach as the list of its rules, and own limits as the list of their entries.
#![tactic(auto)]

mod bits;
mod error;
mod has_target;
mod name;
mod own_limits;
mod reach;
mod read;
mod row;
mod rule;
mod spelled;
mod table;

pub use error::{NameError, ReachError};
pub use has_target::HasTarget;
pub use name::CollectorName;
pub use own_limits::OwnLimits;
pub use reach::Reach;
pub use rule::{ReachRule, ReachTest};
pub use table::ReachTable;
