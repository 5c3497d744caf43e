//! What a path has to name before a journal is written there.
use command_faults::Fault;
use durable_journal::{Recovered, recover};
use std::alloc::{AllocError, AllocGlobal, Global};
use std::fs::{File, Metadata};
use std::os::unix::fs::MetadataExt;
use std::path::Path;
use std::rt::Files;
use std::{fs, io};

/// Whether two paths lead to one file, by links or not. A path that leads to none is nobody's.
pub fn is_same_file<R: Files<File = File>>(rt: &R, one: &str, other: &str) -> bool {
    match (fs::metadata(rt, one), fs::metadata(rt, other)) {
        (Ok(one), Ok(other)) => one.dev() == other.dev() && one.ino() == other.ino(),
        _ => false,
    }
}

/// The path of the file that a path leads to: where it names a symbolic link, that of the link's goal, so that all files of a journal are
/// beside it.
pub(crate) fn goal_of<R: Files<File = File> + AllocGlobal + Clone + Drop>(
    rt: &R,
    alloc: Global,
    path: String,
) -> io::Result<String> {
    if !is_link(rt, path.as_str()) {
        return Ok(path);
    }
    goal_of_link(rt, alloc, path.as_str())
}

/// Refuses a file that is there and is no journal, before anything is made beside it.
pub(crate) fn check_file<R: Files<File = File>>(
    rt: &R,
    alloc: Global,
    path: &str,
) -> Result<(), Fault> {
    match fs::metadata(rt, path) {
        Ok(file) => check_found(rt, alloc, path, &file),
        Err(_) => Ok(()),
    }
}

/// The fault of a file that is no journal.
pub(crate) fn no_journal(alloc: Global, path: &str) -> Fault {
    told(format!(in alloc;
        "{path}: no journal of allocd, or not its whole beginning: it is left as it is; name another file, or move this one away"
    ))
}

/// The fault of a journal of which a line is not as it was written.
pub(crate) fn altered(alloc: Global, path: &str, line: u64) -> Fault {
    told(format!(in alloc;
        "{path}: line {line} is damaged: its digest is not that of it and of the lines before it: put a whole copy of the file in its place, or mend it and run allocd seal"
    ))
}

/// The fault of a file that is too long for a journal.
pub(crate) fn too_long(alloc: Global, path: &str) -> Fault {
    told(format!(in alloc; "{path}: too long"))
}

fn check_found<R: Files<File = File>>(
    rt: &R,
    alloc: Global,
    path: &str,
    file: &Metadata,
) -> Result<(), Fault> {
    if !file.is_file() {
        return Err(told(format!(in alloc;
            "{path}: no regular file, so no journal can be kept there"
        )));
    }
    let mut file = File::open(rt, path)?;
    match recover(alloc, &mut file)? {
        Recovered::Found { .. } => Ok(()),
        Recovered::Altered { line } => Err(altered(alloc, path, line)),
        Recovered::Other => Err(no_journal(alloc, path)),
        Recovered::TooLong => Err(too_long(alloc, path)),
    }
}

fn told(line: Result<String, AllocError>) -> Fault {
    match line {
        Ok(line) => Fault::Told(line),
        Err(error) => error.into(),
    }
}

fn is_link<R: Files<File = File>>(rt: &R, path: &str) -> bool {
    match fs::symlink_metadata(rt, path) {
        Ok(found) => found.is_symlink(),
        Err(_) => false,
    }
}

/// The path of a link's goal, which may not be there yet.
fn goal_of_link<R: Files<File = File> + AllocGlobal + Clone + Drop>(
    rt: &R,
    alloc: Global,
    path: &str,
) -> io::Result<String> {
    match rt.canonicalize(alloc, path) {
        Ok(goal) => String::from_str(alloc, goal.as_str()).map_err(io::Error::from),
        Err(error) if error.kind() == io::ErrorKind::NotFound => missing_goal(rt, alloc, path),
        Err(error) => Err(error),
    }
}

fn missing_goal<R: Files<File = File> + AllocGlobal + Clone + Drop>(
    rt: &R,
    alloc: Global,
    path: &str,
) -> io::Result<String> {
    let goal = rt.read_link(alloc, path)?;
    let folder = Path::new(path).parent().unwrap_or(Path::new(""));
    let goal = folder.join(alloc, goal.as_str())?;
    String::from_str(alloc, goal.as_str()).map_err(io::Error::from)
}
