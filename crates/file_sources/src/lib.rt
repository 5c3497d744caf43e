//! The files of discovery on this machine's disk.
#![tactic(auto)]

mod bodies;
mod host_files;
mod matching;

pub use bodies::LONGEST_FILES;
pub use host_files::HostFiles;
