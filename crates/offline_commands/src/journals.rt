//! Reading the journals of files.
use crate::answer::Answer;
use crate::ending::{Ending, Stop};
use crate::output::{write_answer, write_stop};
use crate::unreadable::Unreadable;
use durable_journal::MOST_JOURNAL;
use lists::List;
use std::alloc::Global;
use std::fs::File;
use std::io;
use std::io::{ErrorKind, Read, Write};
use std::rt::Files;

/// Why the journals of some files are not read.
pub(crate) enum Fault<'a> {
    TooLong,
    /// The file of this path is not read.
    File(&'a str, io::Error),
}

/// Tells why the journals of some files are not read.
pub(crate) fn tell_fault<R: Eprint, W: Write>(rt: &R, fault: Fault<'_>, writer: &mut W) -> Ending {
    match fault {
        Fault::TooLong => write_answer(writer, &Answer::NotRead(Unreadable::TooLong)),
        Fault::File(path, error) => stop_at(rt, path, &error, writer),
    }
}

/// Tells of a file that is not read: on standard error, but for want of memory, which is told as it is elsewhere.
pub(crate) fn stop_at<R: Eprint, W: Write>(
    rt: &R,
    path: &str,
    error: &io::Error,
    writer: &mut W,
) -> Ending {
    match error.kind() {
        ErrorKind::OutOfMemory => write_stop(writer, &[], Stop::Memory),
        _ => {
            // Nobody can be told that a line was not written.
            let _ = rt.eprintln(format_args!("{path}: {error}"));
            Ending::Stopped(Stop::Device)
        }
    }
}

/// The journals of some files.
pub(crate) fn read_journals<'a, R: Files<File = File>>(
    rt: &R,
    alloc: Global,
    paths: &[&'a str],
) -> Result<Vec<List<u8>>, Fault<'a>> {
    let mut journals = Vec::new(alloc);
    for path in paths {
        match read_journal(rt, alloc, path) {
            Ok(journal) if journal.len() as u64 > MOST_JOURNAL => return Err(Fault::TooLong),
            Ok(journal) => push_journal(&mut journals, List::from_vec(journal), path)?,
            Err(error) => return Err(Fault::File(path, error)),
        }
    }
    Ok(journals)
}

fn push_journal<'a>(
    journals: &mut Vec<List<u8>>,
    journal: List<u8>,
    path: &'a str,
) -> Result<(), Fault<'a>> {
    match journals.push(journal) {
        Ok(()) => Ok(()),
        Err(error) => Err(Fault::File(path, error.into())),
    }
}

/// The bytes of a file, or more than the most of a journal.
pub(crate) fn read_journal<R: Files<File = File>>(
    rt: &R,
    alloc: Global,
    path: &str,
) -> io::Result<Vec<u8>> {
    let mut bytes = Vec::new(alloc);
    File::open(rt, path)?
        .take(MOST_JOURNAL + 1)
        .read_to_end(&mut bytes)?;
    Ok(bytes)
}
