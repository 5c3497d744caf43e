//! What `allocd serve` is told of a journal in etcd: members of `allocator`, and the text that names a journal.
//!
//! Contracts see a text as its bytes, and a document as the data that `serde_json` reads of it.
#![tactic(auto)]

mod error;
mod members;
mod place;
mod reading;
mod settings;

pub use error::{Member, SettingsError};
pub use members::{Members, User, read_members};
pub use place::{Place, is_in_etcd};
pub use settings::{DEFAULT_LEASE, LONGEST_LEASE, SHORTEST_LEASE, Settings, settings_of};
