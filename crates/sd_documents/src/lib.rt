//! The JSON documents of service discovery: the configuration, in the spelling of Prometheus's configuration
//! file, and the target groups that a discovery answers with. What is read is what the document says, and what
//! is refused is refused by its first fault.
//!
//! Contracts see a document as the data that `serde_json` reads of it.
#![tactic(auto)]

mod config;
mod error;
mod group;
mod groups;
mod json;
mod labelling;
mod laws;
mod limits;
mod media;
mod written;

pub use config::{Config, Job, Param, read_config, scrape_configs_text};
pub use error::{Limit, Member, SdError};
pub use group::Group;
pub use groups::{has_few_targets, read_group, read_groups};
pub use labelling::first_labels;
pub use laws::{documents_laws, first_labels_laws};
pub use limits::{MOST_JOBS, MOST_RULES, MOST_TARGETS, MOST_URLS};
pub use media::is_json_media;
pub use written::write_groups;
