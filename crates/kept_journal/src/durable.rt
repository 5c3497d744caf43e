//! A beginning of a desk's journal that is kept.
ghost use Rattle.std.specs.Prelude.{◌≡◌, ◌↔◌, ◌≤◌, length, take, IsTrue};
ghost use mathlib.Core.List.{IsPrefix};

use crate::journal_name::JournalName;
use alloc_desk::Front;
use std::marker::Model;

/// A beginning of a desk's journal that its device keeps. Contracts see its entries. When it runs it is a number of entries.
#[derive(Drop)]
pub struct Durable<N: JournalName> {
    /// What was seen of the journal, of which so many entries are kept.
    front: Front<N>,
    entries: u64,
}

impl<N: JournalName> Model for Durable<N> {
    ghost use Rattle.std.specs.Prelude.{◌≤◌, List, length, take};
    ghost use Rattle.journal_entries.specs.declared.entry.Entry.{Entry};

    ghost Value = { List Entry };

    ghost view = { λ d. take d.entries d.front };

    ghost invariant = { λ d. (d.entries ≤ length d.front) × N.keeps (take d.entries d.front) };
}

impl<N: JournalName> Durable<N> {
    /// The first entries that were seen, which are kept.
    pub(crate) fn new(front: Front<N>, entries: u64) -> Durable<N>
        requires seen { entries ≤ length front }
        requires kept { N.keeps (take entries front) }
        ensures { result ≡ take entries front }
    {
        Durable { front, entries }
    }

    /// How many entries are kept.
    pub fn len(&self) -> u64
        ensures len { result ≡ length self.now }
        ensures kept { N.keeps self.now }
    {
        self.entries
    }

    /// A copy.
    pub fn again(&self) -> Durable<N>
        ensures { result ≡ self.now }
    {
        Durable {
            front: self.front.again(),
            entries: self.entries,
        }
    }

    /// Whether all that a front has seen is kept.
    pub fn has(&self, front: &Front<N>) -> bool
        ensures has { IsTrue result ↔ IsPrefix front.now self.now }
        ensures kept { N.keeps self.now }
    {
        self.front.covers(front) && front.len() <= self.entries
    }
}
