//! The file in which is written down what was told.
use agent_core::Memory;
use agent_documents::{DocumentError, read_memory};
use command_faults::Fault;
use std::alloc::{AllocError, AllocGlobal, Global};
use std::fs::{File, OpenOptions};
use std::io::{Read, Write};
use std::os::unix::fs::OpenOptionsExt;
use std::path::Path;
use std::rt::Files;
use std::{fs, io};

/// The most bytes of a state file.
const LONGEST_STATE: u64 = 67_108_864;

/// What the file is made with: only its owner reads and writes it.
const OWNERS_ALONE: u32 = 0o600;

/// What the file at a path says, or that nothing was told where there is none.
pub(crate) fn memory_at<R: Files<File = File> + AllocGlobal>(
    rt: &R,
    path: &str,
) -> Result<Memory, Fault> {
    match read_state(rt, path) {
        Ok(bytes) => memory_in(rt.alloc(), path, bytes.as_slice()),
        Err(error) if error.kind() == io::ErrorKind::NotFound => Ok(Memory::open(rt.alloc())),
        Err(error) => Err(Fault::Told(format!(in rt.alloc(); "{path}: {error}")?)),
    }
}

fn memory_in(alloc: Global, path: &str, bytes: &[u8]) -> Result<Memory, Fault> {
    match read_memory(alloc, bytes) {
        Ok(memory) => Ok(memory),
        Err(DocumentError::Memory) => Err(AllocError.into()),
        Err(DocumentError::NotJson) | Err(DocumentError::Shape(_)) => {
            Err(Fault::Told(format!(in alloc;
                "{path}: no state file of an agent: name another file, or move this one away"
            )?))
        }
    }
}

fn read_state<R: Files<File = File> + AllocGlobal>(rt: &R, path: &str) -> io::Result<Vec<u8>> {
    let mut bytes = Vec::new(rt.alloc());
    File::open(rt, path)?
        .take(LONGEST_STATE)
        .read_to_end(&mut bytes)?;
    Ok(bytes)
}

/// Writes the file at a path: beside it first, and once that is on the device it takes its place.
pub(crate) fn write_state<R: Files<File = File> + AllocGlobal>(
    rt: &R,
    path: &str,
    text: &str,
) -> io::Result<()> {
    let next = format!(in rt.alloc(); "{path}.next")?;
    write_next(rt, next.as_str(), text)?;
    fs::rename(rt, next.as_str(), path)?;
    File::open(rt, folder_of(path))?.sync_all()
}

fn write_next<R: Files<File = File>>(rt: &R, path: &str, text: &str) -> io::Result<()> {
    let mut file = OpenOptions::new()
        .write(true)
        .create(true)
        .truncate(true)
        .mode(OWNERS_ALONE)
        .open(rt, path)?;
    file.write_all(text.as_bytes())?;
    file.sync_all()
}

fn folder_of(path: &str) -> &str {
    match Path::new(path).parent() {
        Some(parent) if !parent.as_str().is_empty() => parent.as_str(),
        _ => ".",
    }
}
