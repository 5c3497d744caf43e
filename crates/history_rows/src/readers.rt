//! Readers of events, histories and journals.
use core_history::{HistoryError, read_history};
use fleet::PartsError;
use fleet_events::read_event;
use lists::Text;
use replay_lines::{Ended, replay, resume};
use std::alloc::{AllocError, Global};

pub(crate) const READ: &str = "read";

/// What the reader of a name says of the bytes. None where there is no such reader.
pub(crate) fn said(alloc: Global, name: &str, bytes: &[u8]) -> Result<Option<String>, AllocError> {
    match name {
        "event" => some(event(alloc, bytes)),
        "history" => some(history(alloc, bytes)),
        "journal" => some(journal(alloc, bytes)),
        "replay" => some(replayed(alloc, bytes)),
        _ => Ok(None),
    }
}

pub(crate) fn some(line: Result<String, AllocError>) -> Result<Option<String>, AllocError> {
    match line {
        Ok(line) => Ok(Some(line)),
        Err(error) => Err(error),
    }
}

/// An event in its written form.
fn event(alloc: Global, bytes: &[u8]) -> Result<String, AllocError> {
    match read_event(alloc, bytes) {
        Ok(Some(event)) => {
            let line = event.to_json(alloc);
            drop(event);
            text_of(line)
        }
        Ok(None) => String::from_str(alloc, "no event"),
        Err(error) => Err(error),
    }
}

fn text_of(line: Result<Text, AllocError>) -> Result<String, AllocError> {
    match line {
        Ok(line) => Ok(line.into_string()),
        Err(error) => Err(error),
    }
}

pub(crate) fn history(alloc: Global, bytes: &[u8]) -> Result<String, AllocError> {
    match read_history(alloc, bytes) {
        Ok(core) => {
            drop(core);
            String::from_str(alloc, READ)
        }
        Err(error) => fault(alloc, error),
    }
}

/// The name of what is said against a history.
pub(crate) fn fault(alloc: Global, error: HistoryError) -> Result<String, AllocError> {
    let name = match error {
        HistoryError::Shape => "Shape",
        HistoryError::Fleet(PartsError::BadJobs) => "BadJobs",
        HistoryError::Fleet(PartsError::BadTargets) => "BadTargets",
        HistoryError::Fleet(PartsError::BadLists) => "BadLists",
        HistoryError::Fleet(PartsError::BadCollectors) => "BadCollectors",
        HistoryError::Fleet(PartsError::RepeatedTarget) => "RepeatedTarget",
        HistoryError::BadAllocation => "BadAllocation",
        HistoryError::BadRound => "BadRound",
        HistoryError::BadServed => "BadServed",
        HistoryError::Fleet(PartsError::Memory) | HistoryError::Memory => return Err(AllocError),
    };
    String::from_str(alloc, name)
}

/// How many events the allocator took that a journal leads to.
fn journal(alloc: Global, bytes: &[u8]) -> Result<String, AllocError> {
    match events_in(alloc, bytes) {
        Ok(Ok(events)) => format!(in alloc; "read {events}"),
        Ok(Err(line)) => format!(in alloc; "damaged at {line}"),
        Err(error) => Err(error),
    }
}

/// How many events, or the damaged line.
fn events_in(alloc: Global, bytes: &[u8]) -> Result<Result<u64, u64>, AllocError> {
    match resume(alloc, bytes) {
        Ok(Ok(resumed)) => {
            let events = resumed.events;
            drop(resumed);
            Ok(Ok(events))
        }
        Ok(Err(damage)) => Ok(Err(damage.line)),
        Err(error) => Err(error),
    }
}

/// Whether all events of a journal are answered.
fn replayed(alloc: Global, bytes: &[u8]) -> Result<String, AllocError> {
    let mut text = Vec::new(alloc);
    match replay(alloc, bytes, &mut text) {
        Ok(Ended::Done) => String::from_str(alloc, READ),
        Ok(Ended::Unreadable) => String::from_str(alloc, "unreadable"),
        Err(_) => Err(AllocError),
    }
}
