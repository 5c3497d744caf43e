//! Discovery by files, without a file: how a configuration says it, which files its patterns name, and what the texts of files list.
//!
//! Contracts see a document as the data that `serde_json` reads of it, and a file as its path and its bytes.
#![tactic(auto)]

mod fault;
mod file_text;
mod folder;
mod groups;
mod listing;
mod pattern;
mod patterns;
mod reading;
mod sources;

pub use fault::FilesFault;
pub use file_text::FileText;
pub use folder::{folder_of, placed};
pub use listing::groups_of_files;
pub use pattern::{PatternFault, is_between, pattern_fault, star_in};
pub use patterns::patterns_of;
pub use reading::ReadFiles;
pub use sources::{DEFAULT_REFRESH, with_sources, with_sources_of_job};
