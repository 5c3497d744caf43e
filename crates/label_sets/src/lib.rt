//! Label names, label sets and final targets, after the data model of Prometheus.
//!
//! Contracts see a label name as its bytes, and a label set as the list of its names and texts in byte
//! order of the names.
#![tactic(auto)]

mod entries;
mod error;
mod group;
mod labels;
mod laws;
mod name;
mod target;
mod texts;

pub use error::LabelError;
pub use labels::Labels;
pub use laws::{finishes_again, map_laws, text_decides};
pub use name::{LabelName, is_label_name};
pub use target::{Finished, Target, finish};
