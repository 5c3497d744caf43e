//! What an agent is told by its configuration file.
//!
//! Contracts see a text as its bytes, and a document as the data that `serde_json` reads of it.
#![tactic(auto)]

mod error;
mod hints;
mod joining;
mod members;
mod reading;
mod settings;
mod tables;

pub use error::{Member, SettingsError};
pub use joining::join_text;
pub use members::Kind;
pub use settings::{DEFAULT_LISTEN, Settings, Tokens, read_settings};
