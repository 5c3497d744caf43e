//! The server that an agent's Prometheus asks for its lists, on one event loop: what the agent serves is put into a store, and requests read it there.
#![tactic(auto)]

mod answering;
mod counts;
mod list_store;
mod metrics;
mod service;
mod serving;

pub use counts::Counts;
pub use list_store::{JobList, ListStore};
pub use serving::serve_lists;
