//! A closed desk.
ghost use Rattle.std.specs.Prelude.{◌≡◌, ◌↔◌, map, IsTrue};
ghost use mathlib.Core.List.{IsPrefix};
ghost use Rattle.allocation_core.specs.Runs.{answers_of};
ghost use Rattle.fleet_events.specs.declared.event.Event.{Event as AnyEvent};
ghost use Rattle.alloc_desk.specs.declared.receipt.Receipt.{Receipt as AnyReceipt};
ghost use Rattle.journal_entries.specs.Legal.{IsLegal};
ghost use Rattle.alloc_desk.specs.Receipts.{told, told_from};

use crate::front::Front;
use crate::leftover::Leftover;
use crate::name::DeskName;
use crate::receipt::Receipt;
use crate::record::Record;
use allocation_core::{Core, Event};
use journal_entries::Entry;
use lists::Plain;
use std::marker::Model;

/// A closed desk: a state, and the journal that leads to it from the opening state.
#[derive(Drop)]
pub struct Closed<N: DeskName> {
    pub(crate) record: Record,
    pub(crate) front: Front<N>,
}

impl<N: DeskName> Model for Closed<N> {
    ghost use Rattle.std.specs.Prelude.{◌≡◌};
    ghost use Rattle.alloc_desk.specs.History.{History};
    ghost use Rattle.journal_entries.specs.Legal.{IsLegal};

    ghost Value = { History };

    ghost view = { λ c. c.record };

    ghost invariant = { λ c. IsLegal N.opening c.record.journal c.record.state × (c.front ≡ c.record.journal) };
}

impl<N: DeskName> Closed<N> {
    /// The entries in order.
    pub fn journal(&self) -> &[Entry]
        ensures entries { result.now ≡ self.now.journal }
        ensures legal { IsLegal N.opening self.now.journal self.now.state }
    {
        self.record.journal()
    }

    /// Whether a front has seen a beginning of the journal.
    pub fn begins_with(&self, front: &Front<N>) -> bool
        ensures { IsTrue result ↔ IsPrefix front.now self.now.journal }
    {
        self.front.covers(front)
    }

    /// The allocator as it is after all events of the journal.
    pub fn core(&self) -> &Core
        ensures { result.now ≡ self.now.state }
    {
        self.record.core()
    }

    /// The allocator, to open the next desk with.
    pub fn into_core(self) -> Core
        ensures { result ≡ self.state }
    {
        self.record.into_core()
    }

    /// The same, and what is left of the desk.
    pub fn into_parts(self) -> (Core, Leftover)
        ensures { result.0 ≡ self.state }
    {
        let (core, journal) = self.record.into_parts();
        (core, Leftover { journal })
    }

    /// Whether the receipts, each beside its event, are those that the journal gave, in its order.
    pub fn agrees(&self, receipts: &[(Event, Receipt)]) -> bool
        ensures journal { IsTrue result ↔ (receipts.now ≡ told_from 0 self.now.journal) }
        // so the receipts are the answers of one legal history, each event once
        ensures history { IsTrue result → map (λ (r : AnyEvent × AnyReceipt). r.1.answer) receipts.now ≡ answers_of N.opening (map (λ (r : AnyEvent × AnyReceipt). r.0) receipts.now) }
    {
        are_told(receipts, self.record.journal())
    }
}

fn are_told(receipts: &[(Event, Receipt)], entries: &[Entry]) -> bool
    ensures { IsTrue result ↔ (receipts.now ≡ told_from 0 entries.now) }
{
    if receipts.len() != entries.len() {
        return false;
    }
    for i in 0..receipts.len() {
        if !is_told(&receipts[i], i as u64, &entries[i]) {
            return false;
        }
    }
    true
}

fn is_told(receipt: &(Event, Receipt), position: u64, entry: &Entry) -> bool
    ensures { IsTrue result ↔ (receipt.now ≡ told position entry.now) }
{
    receipt.0.same(&entry.event)
        && receipt.1.position == position
        && receipt.1.seat == entry.seat
        && receipt.1.answer.same(&entry.answer)
}
