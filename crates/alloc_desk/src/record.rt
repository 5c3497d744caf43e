//! The machine with its journal.
ghost use Rattle.std.specs.Prelude.{◌≡◌, ◌↔◌, ◌+◌, ◌≤◌, [], ◌∷◌, ◌++◌, length, Err, IfOk, OnOk, OnErr};
ghost use Rattle.scrape_books.specs.Books.{total_of};
ghost use Rattle.allocation_core.specs.State.{State};
ghost use Rattle.allocation_core.specs.Steps.{answer_of, state_after, gained};
ghost use Rattle.alloc_desk.specs.Changed.{changed_in};
ghost use Rattle.alloc_desk.specs.Spare.{IsSpareOf};
ghost use Rattle.journal_entries.specs.Legal.{IsLegal};
ghost use Rattle.alloc_desk.specs.declared.limits.TheConstants.{MOST_ENTRIES};

use crate::changed::changed_by;
use crate::limits::MOST_ENTRIES;
use crate::spare::{copy_with, spare_of};
use allocation_core::{Answer, Core, Event, ServedList};
use journal_entries::Entry;
use lists::Plain;
use std::alloc::{AllocError, Global};
use std::marker::Model;

/// Why an event was not entered.
#[derive(Clone, Copy, PartialEq, Eq)]
pub enum EnterError {
    /// The journal has its most entries.
    JournalFull,
    /// No memory was left.
    Memory,
}

/// The allocator with the journal of its events. Contracts see it as a history.
#[derive(Drop)]
pub struct Record {
    core: Core,
    journal: Vec<Entry>,
    changed: bool,
}

impl Model for Record {
    ghost use Rattle.std.specs.Prelude.{◌≡◌, ◌≤◌, length};
    ghost use Rattle.alloc_desk.specs.Changed.{changed_in};
    ghost use Rattle.alloc_desk.specs.History.{History};
    ghost use Rattle.alloc_desk.specs.declared.limits.TheConstants.{MOST_ENTRIES};

    ghost Value = { History };

    ghost view = { λ r. record { state = r.core; journal = r.journal.items } };

    ghost invariant = { λ r. (length r.journal.items ≤ MOST_ENTRIES) × (r.changed ≡ changed_in r.journal.items) };
}

impl Record {
    /// A record of nothing yet. It takes no memory.
    pub fn open(alloc: Global, core: Core) -> Record
        ensures state { result.state ≡ core }
        ensures journal { result.journal ≡ [] }
    {
        Record {
            core,
            journal: Vec::new(alloc),
            changed: true,
        }
    }

    /// The allocator as it is after all events of the journal.
    pub fn core(&self) -> &Core
        ensures { result.now ≡ self.now.state }
    {
        &self.core
    }

    /// The allocator alone.
    pub fn into_core(self) -> Core
        ensures { result ≡ self.state }
    {
        self.core
    }

    /// The allocator and the entries.
    pub(crate) fn into_parts(self) -> (Core, Vec<Entry>)
        ensures { result.0 ≡ self.state }
    {
        (self.core, self.journal)
    }

    /// The entries in order.
    pub fn journal(&self) -> &[Entry]
        ensures { result.now ≡ self.now.journal }
    {
        self.journal.as_slice()
    }

    /// Whether live targets, collectors, drainings or limits changed since the last reallocation of the journal; true where there
    /// is none.
    pub fn is_changed(&self) -> bool
        ensures { result ≡ changed_in self.now.journal }
    {
        self.changed
    }

    /// Applies an event and writes it down with its answer. The result has the entry's position, from 0, and the answer.
    /// Where memory is wanted, nothing was applied.
    pub fn enter(&mut self, seat: u32, event: Event) -> Result<(u64, Answer), EnterError>
        ensures position { IfOk result (λ r. r.0 ≡ length self.old.journal) }
        ensures answer { IfOk result (λ r. r.1 ≡ answer_of self.old.state event) }
        ensures journal { IfOk result (λ r. self.new.journal ≡ self.old.journal ++ record { event = event; seat = seat; answer = r.1 } ∷ []) }
        ensures state { OnOk result (self.new.state ≡ state_after self.old.state event) }
        ensures total { IfOk result (λ r. total_of self.new.state.booked ≡ total_of self.old.state.booked + gained event r.1) }
        ensures legal { (opening : State) → IsLegal opening self.old.journal self.old.state → IsLegal opening self.new.journal self.new.state }
        ensures room { OnOk result (length self.old.journal + 1 ≤ MOST_ENTRIES) }
        ensures full { (result ≡ Err EnterError.JournalFull) ↔ (length self.old.journal ≡ MOST_ENTRIES) }
        ensures err { OnErr result (self.new ≡ self.old) }
    {
        let position = self.journal.len();
        if position == MOST_ENTRIES {
            drop(event);
            return Err(EnterError::JournalFull);
        }
        if self.journal.reserve(1).is_err() {
            drop(event);
            return Err(EnterError::Memory);
        }
        let Ok((copy, spare)) = copies_for(*self.journal.allocator(), &self.core, &event) else {
            drop(event);
            return Err(EnterError::Memory);
        };
        let Ok(answer) = self.core.apply(event) else {
            drop((copy, spare));
            return Err(EnterError::Memory);
        };
        self.changed = changed_by(self.changed, &answer);
        self.journal.push_reserved(Entry {
            event: copy,
            seat,
            answer: copy_with(&answer, spare),
        });
        Ok((position as u64, answer))
    }
}

/// A copy of an event, and the lists that a copy of its answer will have, where it may have some.
fn copies_for(
    alloc: Global,
    core: &Core,
    event: &Event,
) -> Result<(Event, Option<ServedList>), AllocError>
    ensures copy { IfOk result (λ r. r.0 ≡ event.now) }
    ensures spare { IfOk result (λ r. IsSpareOf core.now event.now r.1) }
{
    let copy = event.copy()?;
    match spare_of(alloc, core, event) {
        Ok(spare) => Ok((copy, spare)),
        Err(error) => {
            drop(copy);
            Err(error)
        }
    }
}
