//! What was seen of a desk's journal: a beginning of the one that comes out of it.
ghost use Rattle.std.specs.Prelude.{◌≡◌, ◌↔◌, ◌<◌, ◌^◌, ◌++◌, ◌∷◌, [], length, IfSome, IsTrue};
ghost use mathlib.Core.List.{IsPrefix};
ghost use Rattle.allocation_core.specs.Steps.{answer_of};
ghost use Rattle.journal_entries.specs.Legal.{IsLegal};
ghost use Rattle.alloc_desk.specs.History.{end_of};

mod asking;

use crate::log::{Add, Head, Law, Nothing};
use crate::name::DeskName;
use journal_entries::Entry;
use logbook::{Offer, Seen};
use std::marker::{Model, PhantomData};
use std::sync::Wait;

/// What was seen of a desk's journal. Contracts see its entries, which are a legal journal. `Desk::front` gives one, and who asks through it
/// learns more. When it runs it is a number of entries.
#[derive(Drop)]
pub struct Front<N: DeskName> {
    entries: u64,
    seen: Seen<Entry, u64, Law>,
    of: PhantomData<N>,
}

impl<N: DeskName> Model for Front<N> {
    ghost use Rattle.std.specs.Prelude.{◌≡◌, List, length};
    ghost use Rattle.journal_entries.specs.declared.entry.Entry.{Entry};
    ghost use Rattle.journal_entries.specs.Legal.{IsLegal};
    ghost use Rattle.alloc_desk.specs.History.{end_of};

    ghost Value = { List Entry };

    ghost view = { λ f. f.seen.log };

    ghost invariant = { λ f. (f.entries ≡ length f.seen.log) × (f.seen.book ≡ N.book) × IsLegal N.opening f.seen.log (end_of N.opening f.seen.log) };
}

impl<N: DeskName> Front<N> {
    /// The front that has seen nothing.
    pub(crate) fn first(seen: Seen<Entry, u64, Law>) -> Front<N>
        requires book { seen.book ≡ N.book }
        requires empty { seen.log ≡ [] }
        ensures { result ≡ [] }
    {
        Front {
            entries: 0,
            seen,
            of: PhantomData,
        }
    }

    /// How many entries were seen.
    pub fn len(&self) -> u64
        ensures len { result ≡ length self.now }
        ensures legal { IsLegal N.opening self.now (end_of N.opening self.now) }
    {
        self.entries
    }

    /// A copy.
    pub fn again(&self) -> Front<N>
        ensures same { result ≡ self.now }
        ensures legal { IsLegal N.opening result (end_of N.opening result) }
    {
        Front {
            entries: self.entries,
            seen: self.seen.again(),
            of: PhantomData,
        }
    }

    /// Whether all that the other has seen was seen. Of two fronts of a desk the longer begins with the shorter.
    pub fn covers(&self, other: &Front<N>) -> bool
        ensures { IsTrue result ↔ IsPrefix other.now self.now }
    {
        let mut both = self.seen.again();
        both.learn(&other.seen);
        self.entries >= other.entries
    }

    /// Adds an entry to all that was seen, once that is all of the log.
    pub(crate) fn push(&mut self, rt: &impl Wait, head: &Head<N>, entry: &Entry)
        requires room { length self.old < 2 ^ 62 }
        requires answer { entry.now.answer ≡ answer_of (end_of N.opening self.old) entry.now.event }
        ensures { self.new ≡ self.old ++ entry.now ∷ [] }
    {
        for _turn in rt.forever() {
            if let Some(front) = self.with(head, entry) {
                *self = front;
                return;
            }
        }
        unreachable!()
    }

    /// What is seen once the log has this entry behind all that was seen. None where the log has more.
    fn with(&self, head: &Head<N>, entry: &Entry) -> Option<Front<N>>
        requires room { length self.now < 2 ^ 62 }
        requires answer { entry.now.answer ≡ answer_of (end_of N.opening self.now) entry.now.event }
        ensures { IfSome result (λ f. f ≡ self.now ++ entry.now ∷ []) }
    {
        let mut seen = self.seen.again();
        let mut offer: Offer<Entry, u64, Law, Nothing> = seen.plain::<Nothing, Entry, Add>(entry);
        let mut pen = seen.no_pen();
        let entries = self.entries;
        let found = head
            .word
            .compare_exchange::<Add, Nothing>(
                entries,
                entries + 1,
                &mut seen,
                &mut offer,
                &mut pen,
            );
        if found == entries {
            Some(Front {
                entries: entries + 1,
                seen,
                of: PhantomData,
            })
        } else {
            None
        }
    }
}
