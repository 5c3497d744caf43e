//! The scrape configs of a configuration as its collectors are to use them.
//!
//! Contracts see a document as the data that `serde_json` reads of it.
#![tactic(auto)]

mod found;
mod kept;
mod pages;
mod requests;
mod times;

pub use pages::collectors_configs;
