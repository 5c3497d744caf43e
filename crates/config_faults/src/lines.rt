//! The lines that are told.
use std::alloc::{AllocError, Global};

/// The lines of what is wrong with the configuration at a path, each with the path before it.
#[derive(Drop)]
pub(crate) struct Lines<'a> {
    alloc: Global,
    path: &'a str,
    text: String,
}

impl<'a> Lines<'a> {
    pub(crate) fn new(alloc: Global, path: &'a str) -> Lines<'a> {
        Lines {
            alloc,
            path,
            text: String::new(alloc),
        }
    }

    /// Adds a line.
    pub(crate) fn tell(&mut self, what: &str) -> Result<(), AllocError> {
        let path = self.path;
        if !self.text.is_empty() {
            self.text.push_str("\n")?;
        }
        self.text.push_str(path)?;
        self.text.push_str(": ")?;
        self.text.push_str(what)
    }

    /// The lines, if there are any. The last one has no line feed behind it.
    pub(crate) fn told(self) -> Option<String> {
        let Lines { text, .. } = self;
        if text.is_empty() { None } else { Some(text) }
    }
}
