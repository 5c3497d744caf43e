//! Which members the configuration of the service may have at each place: those that are read here, and those of Prometheus's
//! configuration that are not followed here. Any other is unknown.
//!
//! Contracts see a document as the data that `serde_json` reads of it.
#![tactic(auto)]

mod meant;
mod place;
mod tables;
mod unknown;
mod unread;

pub use meant::nearest;
pub use place::{Part, Place};
pub use unknown::{is_among, unknown_member};
pub use unread::{Standing, Unread, unread_members};
