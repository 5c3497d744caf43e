//! What is wrong with the configuration of the service, told in lines with the way to each member, and what of it is not followed.
//!
//! Whether a configuration is refused is decided by the readers of its parts (`sd_documents`, `relabel`, `service_settings`), by
//! `config_members`, and here by what only the service asks for: URLs that it can ask, paths that it can read, durations, and limits of jobs that there are.
#![tactic(auto)]

mod collectors;
mod files;
mod groups;
mod job;
mod jobs;
mod limits;
mod lines;
mod members;
mod patterns;
mod reach;
mod rules;
mod settings;
mod shapes;
mod sources;
mod told;
mod unparsed;

pub use members::not_followed;
pub use told::faults_of;
