//! A configuration without its secrets: what is shown and kept of it.
//!
//! Contracts see a document as the data that `serde_json` reads of it.
#![tactic(auto)]

mod masking;

pub use masking::without_secrets;
