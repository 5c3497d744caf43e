//! What is noted of a round that is over.
use crate::logging::log_warning;
use crate::shared::Shared;
use alloc_desk::Pass;
use allocation_core::Core;
use fleet_events::Round;
use kept_journal::JournalName;
use page_rows::job_books;
use service_state::RoundBooks;
use std::alloc::{AllocError, Global};
use std::sync::Wait;
use std::sync::ledger::Ledger;
use std::time::Clock;

impl<R: Wait + Clock + Eprint + Copy, L: Ledger, B: Ledger, N: JournalName> Shared<R, L, B, N> {
    /// Notes for those who look at the service what was booked in a round.
    pub(crate) fn note_books(&self, pass: &mut Pass<L, B, N>, round: Round) {
        let books = self.desk.read(&self.rt, pass, |record| {
            books_of_round(self.alloc, record.core(), round)
        });
        match books {
            Ok(books) => self.state.note_books(&self.rt, books),
            Err(_) => log_warning(&self.rt, "no memory to note what was booked"),
        }
    }
}

/// What is booked of a round that is over, where the next one is open since a moment ago.
fn books_of_round(alloc: Global, core: &Core, round: Round) -> Result<RoundBooks, AllocError> {
    let booked = job_books(alloc, core, round)?;
    let books = RoundBooks::of_jobs(alloc, booked.as_slice());
    drop(booked);
    books
}
