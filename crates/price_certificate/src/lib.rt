//! Certificates for the assignment problem with capacities: an instance, a plan with the prices that are to prove it
//! the best, and the checker that nobody needs to trust, since its yes is a theorem.
#![tactic(auto)]

mod checker;
mod document;
mod faults;
mod instance;
mod laws;
mod plan;
mod rows;
mod shape;
mod verdict;
mod version;

pub use checker::check;
pub use document::{
    DocumentError, document_value, instance_of, one_document, one_instance, read_document,
    read_instance, shared_document_value, write_document,
};
pub use faults::{count_bins, value_of_bins, value_of_items};
pub use instance::Instance;
pub use laws::{
    certified_is_optimal, no_fault_is_certified, price_fault_is_least, worth_is_by_level,
};
pub use plan::Plan;
pub use rows::Rows;
pub use shape::{InstanceError, MOST_BINS, MOST_ITEMS, MOST_PAIRS};
pub use verdict::{Fault, Verdict};
pub use version::Version;
