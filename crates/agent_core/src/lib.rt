//! What an agent decides that stands beside a Prometheus: which scrape it reports to the allocator, and which list its Prometheus is served.
//! It has no handle and no clock: times are given, in milliseconds.
//!
//! Contracts see a `Memory` as what was told, and an `Agent` as its state.
#![tactic(auto)]

mod adding;
mod agent;
mod choosing;
mod laws;
mod memory;
mod report;
mod said;
mod serving;
mod sharing;
mod slot;
mod target;
mod url;

pub use agent::{Agent, Lists};
pub use laws::{given_to_one, never_twice, nothing_older, only_what_was_held, only_what_was_taken};
pub use memory::Memory;
pub use report::{Head, Report};
pub use said::Said;
pub use serving::{Serving, Standing};
pub use sharing::{LastScrape, Lasts, SPAN};
pub use slot::Point;
pub use target::{Listed, Series};
pub use url::{Parameter, Url};
