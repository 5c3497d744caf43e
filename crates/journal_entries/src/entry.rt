//! An entry of a journal.
use allocation_core::{Answer, Event};
use lists::Plain;
use std::alloc::AllocError;

/// One event, and how it was answered.
#[derive(Debug, Drop)]
pub struct Entry {
    pub event: Event,
    /// Whose event it is.
    pub seat: u32,
    pub answer: Answer,
}

impl Plain for Entry {
    fn copy(&self) -> Result<Entry, AllocError> {
        let event = self.event.copy()?;
        let answer = self.answer.copy()?;
        Ok(Entry {
            event,
            seat: self.seat,
            answer,
        })
    }

    fn same(&self, other: &Entry) -> bool {
        self.event.same(&other.event) && self.seat == other.seat && self.answer.same(&other.answer)
    }
}
