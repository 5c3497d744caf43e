//! What an agent asks over HTTP and what the answers say, without a socket: its lists, shown or taken, reports, a join, and what its Prometheus tells
//! of its scrapes.
//!
//! Contracts see a path and a body as their bytes, and an answer as its status, the texts of its headers and its body.
#![tactic(auto)]

mod active;
mod gathering;
mod jobs;
mod lasts;
mod paths;
mod posted;
mod reports;
mod saying;
mod url;

pub use active::read_active;
pub use gathering::Gathering;
pub use jobs::{JobLink, read_jobs};
pub use lasts::{Known, has_shared, read_lasts};
pub use paths::{active_path, jobs_path, join_path, list_path, range_path, reports_path};
pub use posted::read_posted;
pub use reports::{MOST_REPORTS, reports_text};
pub use saying::{Heads, Saying, saying_of};
