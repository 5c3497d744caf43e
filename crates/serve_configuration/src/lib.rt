//! What `allocd serve` reads before it serves, and again at each reload: its configuration, its tokens and its password, where it listens, and what the machine
//! gives it.
#![tactic(auto)]

mod configuration;
mod descriptors;
mod devices;
mod documents;
mod doors;
mod etcd_words;
mod kernel_texts;
mod left_out;
mod listening;
mod not_followed;
mod password;
mod process;
mod standard_streams;

pub use configuration::ConfigurationFile;
pub use descriptors::{most_connections, warn_of_fewer};
pub use devices::{Devices, EtcdLookups, Machine, etcd_lookups};
pub use documents::{read_document, service_in, settings_in};
pub use doors::admission_at;
pub use etcd_words::etcd_of;
pub use listening::{listen_address, listener_at};
pub use not_followed::{told_valid, warn_of};
pub use password::password_at;
pub use standard_streams::hold_streams;
