//! Devices that read files.
use crate::fault::FilesFault;
use crate::file_text::FileText;
use lists::{List, Text};

/// A device that reads the files of discovery.
pub trait ReadFiles {
    /// The files that these paths and patterns name now, in this order, and those of a pattern in byte order.
    fn read_files(&self, patterns: &[Text]) -> Result<List<FileText>, FilesFault>;
}
