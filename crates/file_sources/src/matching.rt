//! The paths that a pattern with a star names.
use file_configs::{FilesFault, folder_of, is_between};
use lists::Text;
use std::alloc::{AllocError, AllocGlobal, Global};
use std::fs::{DirEntry, File};
use std::rt::Files;
use std::{fs, io};

/// The paths that begin with the head of a pattern and end with its tail, in byte order. There are none where there is no such folder.
pub(crate) fn paths_between<R: Files<File = File> + AllocGlobal + Clone + Drop>(
    rt: &R,
    alloc: Global,
    head: &str,
    tail: &str,
) -> Result<Vec<String>, FilesFault> {
    let folder = folder_of(head);
    match listed(rt, alloc, folder, head, tail) {
        Ok(paths) => Ok(paths),
        Err(error) if error.kind() == io::ErrorKind::NotFound => Ok(Vec::new(alloc)),
        Err(error) => Err(unread(alloc, or_here(folder), &error)),
    }
}

/// Why a file or a folder at a path cannot be read.
pub(crate) fn unread(alloc: Global, path: &str, error: &io::Error) -> FilesFault {
    if error.kind() == io::ErrorKind::OutOfMemory {
        return FilesFault::Memory;
    }
    match unread_text(alloc, path, error) {
        Ok(fault) => fault,
        Err(AllocError) => FilesFault::Memory,
    }
}

fn unread_text(alloc: Global, path: &str, error: &io::Error) -> Result<FilesFault, AllocError> {
    let path = Text::from_str(alloc, path)?;
    let why = format!(in alloc; "{error}")?;
    Ok(FilesFault::Unread(path, Text::from_string(why)))
}

fn listed<R: Files<File = File> + AllocGlobal + Clone + Drop>(
    rt: &R,
    alloc: Global,
    folder: &str,
    head: &str,
    tail: &str,
) -> io::Result<Vec<String>> {
    let mut paths = Vec::new(alloc);
    for entry in fs::read_dir(rt, or_here(folder))? {
        if let Some(path) = path_in(alloc, entry, folder, head, tail)? {
            paths.push(path)?;
        }
    }
    paths.sort()?;
    Ok(paths)
}

/// The path of an entry of a folder, where it is between a head and a tail. A name that is no text is none.
fn path_in<R: Files + Drop>(
    alloc: Global,
    entry: io::Result<DirEntry<R>>,
    folder: &str,
    head: &str,
    tail: &str,
) -> io::Result<Option<String>> {
    match entry {
        Ok(entry) => Ok(path_between(alloc, entry.file_name(), folder, head, tail)?),
        Err(error) if error.kind() == io::ErrorKind::InvalidFilename => Ok(None),
        Err(error) => Err(error),
    }
}

fn path_between(
    alloc: Global,
    name: &str,
    folder: &str,
    head: &str,
    tail: &str,
) -> Result<Option<String>, AllocError> {
    let mut path = String::from_str(alloc, folder)?;
    path.push_str(name)?;
    if is_between(head, tail, path.as_str()) {
        Ok(Some(path))
    } else {
        Ok(None)
    }
}

/// The folder, or the one that the process is in.
fn or_here(folder: &str) -> &str {
    if folder.is_empty() { "." } else { folder }
}
