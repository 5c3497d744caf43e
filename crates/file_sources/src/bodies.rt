//! What was read of files.
use crate::matching::unread;
use file_configs::{FileText, FilesFault};
use lists::{List, Text};
use std::alloc::{AllocError, AllocGlobal, Global};
use std::fs::File;
use std::io::Read;
use std::rt::Files;
use std::{fs, io};

/// The most bytes of the files of a source together: 4 MiB, as of an answer over HTTP.
pub const LONGEST_FILES: u64 = 4_194_304;

/// The files of a source that were read so far.
#[derive(Drop)]
pub(crate) struct Bodies {
    pub(crate) files: List<FileText>,
    /// How many bytes there may be besides.
    left: u64,
}

impl Bodies {
    pub(crate) fn none(alloc: Global) -> Bodies {
        Bodies {
            files: List::new(alloc),
            left: LONGEST_FILES,
        }
    }

    /// Reads the file at a path, where there is one.
    pub(crate) fn read<R: Files<File = File> + AllocGlobal>(
        &mut self,
        rt: &R,
        alloc: Global,
        path: &str,
    ) -> Result<(), FilesFault> {
        match body_at(rt, alloc, path, self.left) {
            Ok(body) => self.add(alloc, path, body),
            Err(error) if error.kind() == io::ErrorKind::NotFound => Ok(()),
            Err(error) => Err(unread(alloc, path, &error)),
        }
    }

    fn add(&mut self, alloc: Global, path: &str, body: Vec<u8>) -> Result<(), FilesFault> {
        let path = Text::from_str(alloc, path)?;
        match self.left.checked_sub(body.len() as u64) {
            Some(left) => {
                self.left = left;
                let body = List::from_vec(body);
                self.files.push(FileText { path, body })?;
                Ok(())
            }
            None => Err(FilesFault::TooLong(path)),
        }
    }
}

/// What stands in a file, up to one byte more than these.
fn body_at<R: Files<File = File>>(
    rt: &R,
    alloc: Global,
    path: &str,
    most: u64,
) -> io::Result<Vec<u8>> {
    if !fs::metadata(rt, path)?.is_file() {
        return Err(io::Error::other("no regular file"));
    }
    let mut bytes = Vec::new(alloc);
    File::open(rt, path)?
        .take(most.saturating_add(1))
        .read_to_end(&mut bytes)?;
    Ok(bytes)
}
