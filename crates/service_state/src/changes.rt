//! What was asked of the fleet over HTTP, until it is logged.
use crate::kinds::{EventKind, is_done};
use lists::Text;
use std::alloc::Global;
use std::mem;
use std::net::SocketAddr;

/// How many are noted at most between two looks.
const MOST_NOTES: usize = 256;

/// What was asked of the fleet over HTTP, and what was answered.
#[derive(Drop)]
pub struct ChangeNote {
    /// A join, a leave, a drain, or limits.
    pub what: EventKind,
    /// The collector's name, or its number.
    pub collector: Text,
    /// The answer's line.
    pub answer: Text,
    /// Who asked.
    pub peer: Option<SocketAddr>,
}

impl ChangeNote {
    /// Whether it was not done.
    pub fn is_refused(&self) -> bool {
        !is_done(self.answer.as_str())
    }
}

/// What was asked of the fleet over HTTP since the last look.
#[derive(Drop)]
pub struct Changes {
    /// The first ones, in order.
    pub notes: Vec<ChangeNote>,
    /// How many more there were.
    pub dropped: u64,
}

impl Changes {
    pub(crate) fn new(alloc: Global) -> Changes {
        Changes {
            notes: Vec::new(alloc),
            dropped: 0,
        }
    }

    /// One more, which is counted where there is no room for it.
    pub(crate) fn note(&mut self, note: ChangeNote) {
        if self.notes.len() >= MOST_NOTES || self.notes.push(note).is_err() {
            self.dropped = self.dropped.saturating_add(1);
        }
    }

    /// All of them. None are left.
    pub(crate) fn take(&mut self) -> Changes {
        let left = Changes::new(*self.notes.allocator());
        mem::replace(self, left)
    }
}
