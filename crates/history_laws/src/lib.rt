//! Laws of journals: what is promised from whatever state a first line opens, and of journals in order that are one history.
#![tactic(auto)]

mod laws;

pub use laws::{consistent_journals_are_histories, opened_are_good};
