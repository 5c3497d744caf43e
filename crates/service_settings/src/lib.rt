//! What `allocd serve` is told by its configuration file.
//!
//! Contracts see a text as its bytes, and a document as the data that `serde_json` reads of it.
#![tactic(auto)]

mod address;
mod digits;
mod duration;
mod error;
mod matching;
mod reading;
mod settings;

pub use address::{Address, address_of};
pub use duration::{LONGEST_DURATION, duration_of};
pub use error::{Member, SettingsError};
pub use reading::{LEAST_CONNECTIONS, MOST_CONNECTIONS, MOST_REPORT_ROUNDS, member_of};
pub use settings::{
    Collector, CollectorTimeout, DEFAULT_CONNECTIONS, DEFAULT_FETCH_TIMEOUT, DEFAULT_GIVE_UP,
    DEFAULT_INTERVAL, DEFAULT_KEEP, DEFAULT_LISTEN, DEFAULT_REPORT_ROUNDS, DEFAULT_SETTLE,
    DEFAULT_SLACK, Doors, Handover, JobSpread, JoiningPattern, LONGEST_PATTERN, Lifecycle,
    MOST_SLACK, ReachChanges, ReleaseAfter, Settings, Spread, is_host_and_port, read_settings,
};
