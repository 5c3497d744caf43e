//! A file that was read.
use lists::{List, Text};

/// A file that was read.
#[derive(Drop)]
pub struct FileText {
    pub path: Text,
    pub body: List<u8>,
}
