//! What lies under a desk's lock.
ghost use Rattle.std.specs.Prelude.{◌≡◌, ◌+◌, ◌<◌, ◌≤◌, ◌∷◌, ◌++◌, length, sum_by, vec_len, [], Err, IfOk, OnErr};
ghost use Rattle.scrape_books.specs.Books.{total_of};
ghost use Rattle.allocation_core.specs.Steps.{gained};
ghost use Rattle.alloc_desk.specs.Counts.{Counts};
ghost use Rattle.alloc_desk.specs.History.{History};
ghost use Rattle.journal_entries.specs.Legal.{IsLegal};
ghost use Rattle.alloc_desk.specs.Reached.{IsFull, IsReceipt, Reached};
ghost use Rattle.alloc_desk.specs.Seen.{entry_of};
ghost use Rattle.alloc_desk.specs.declared.limits.TheConstants.{MOST_ENTRIES};

use crate::closed::Closed;
use crate::front::Front;
use crate::gains::{gained, offered};
use crate::log::{Head, Log};
use crate::name::DeskName;
use crate::pass::Pass;
use crate::receipt::Receipt;
use crate::record::{EnterError, Record};
use allocation_core::Event;
use std::marker::Model;
use std::sync::Wait;
use std::sync::ledger::{Book, Ledger, Share};

/// What lies under the lock: a record whose journal is legal from the opening state, with the books of the two ledgers, and with the
/// log of all entries, whose front has seen the journal. Contracts see its history.
#[derive(Drop)]
pub(crate) struct LockedRecord<L: Ledger, B: Ledger, N: DeskName> {
    record: Record,
    calls: Book<L>,
    samples: Book<B>,
    head: Head<N>,
    front: Front<N>,
}

impl<L: Ledger, B: Ledger, N: DeskName> Model for LockedRecord<L, B, N> {
    ghost use Rattle.std.specs.Prelude.{◌≡◌};
    ghost use Rattle.alloc_desk.specs.History.{History, IsAccounted};

    ghost Value = { History };

    ghost view = { λ s. s.record };

    ghost invariant = { λ s. IsAccounted N.opening s.record s.calls.total s.samples.total × (s.front ≡ s.record.journal) };
}

impl<L: Ledger, B: Ledger, N: DeskName> LockedRecord<L, B, N> {
    /// One over a record with no journal yet.
    pub(crate) fn new(
        kept: Record,
        calls: Book<L>,
        samples: Book<B>,
        log: Log,
    ) -> LockedRecord<L, B, N>
        requires opening { kept.state ≡ N.opening }
        requires empty { kept.journal ≡ [] }
        requires books { (calls.total ≡ 0) × (samples.total ≡ 0) }
        requires log { log ≡ N.book }
        ensures { result ≡ kept }
    {
        let (head, front) = log.named::<N>();
        LockedRecord {
            record: kept,
            calls,
            samples,
            head,
            front,
        }
    }

    /// The ledgers show that the record has what the pass did.
    pub(crate) fn confirm(&mut self, pass: &mut Pass<L, B, N>)
        ensures reached { Reached N.opening pass.old (λ h. h ≡ self.old) }
        ensures same { pass.new ≡ pass.old }
        ensures kept { self.new ≡ self.old }
    {
        self.calls.audit(&mut pass.call_share);
        self.samples.audit(&mut pass.sample_share);
    }

    /// The allocator and its journal.
    pub(crate) fn record(&self) -> &Record
        ensures { result.now ≡ self.now }
    {
        &self.record
    }

    /// The front that has seen all of the journal.
    pub(crate) fn front(&self) -> &Front<N>
        ensures { result.now ≡ self.now.journal }
    {
        &self.front
    }

    /// Enters an event for a pass.
    pub(crate) fn submit(
        &mut self,
        rt: &impl Wait,
        pass: &mut Pass<L, B, N>,
        event: Event,
    ) -> Result<Receipt, EnterError>
        ensures answered { IfOk result (λ r. Reached N.opening pass.old (λ h. (h ≡ self.old) × IsReceipt event pass.old r h)) }
        ensures entered { IfOk result (λ r. self.new.journal ≡ self.old.journal ++ entry_of event r ∷ []) }
        ensures counts { IfOk result (λ r. pass.new ≡ record { seat = pass.old.seat; calls = pass.old.calls + 1; booked = pass.old.booked + gained event r.answer }) }
        ensures full { result ≡ Err EnterError.JournalFull → Reached N.opening pass.old IsFull }
        ensures most { result ≡ Err EnterError.JournalFull → length self.new.journal ≡ MOST_ENTRIES }
        ensures err { OnErr result ((pass.new ≡ pass.old) × (self.new ≡ self.old)) }
    {
        self.calls.audit(&mut pass.call_share);
        self.samples.audit(&mut pass.sample_share);
        let samples = offered(&event);
        let (position, answer) = self.record.enter(pass.seat, event)?;
        self.front
            .push(rt, &self.head, &self.record.journal()[position as usize]);
        let gain = gained(samples, &answer);
        self.calls.add(&mut pass.call_share, 1);
        self.samples.add(&mut pass.sample_share, u64::from(gain));
        pass.calls += 1;
        pass.booked += u64::from(gain);
        Ok(Receipt {
            position,
            seat: pass.seat,
            answer,
        })
    }

    /// The record, where all passes came back.
    pub(crate) fn finish(self, passes: Vec<Pass<L, B, N>>) -> Closed<N>
        requires all { vec_len passes ≡ N.seats }
        requires some { 0 < N.seats }
        requires calls { L.parts ≡ N.seats }
        requires samples { B.parts ≡ N.seats }
        ensures legal { IsLegal N.opening result.journal result.state }
        ensures length { length result.journal ≡ sum_by (λ (p : Counts). p.calls) passes.items }
        ensures total { total_of result.state.booked ≡ total_of N.opening.booked + sum_by (λ (p : Counts). p.booked) passes.items }
    {
        let LockedRecord {
            record,
            mut calls,
            mut samples,
            head: _,
            front,
        } = self;
        let (mut call_share, mut sample_share) = merged(passes);
        calls.audit(&mut call_share);
        samples.audit(&mut sample_share);
        Closed { record, front }
    }
}

/// One share of each ledger with all that the passes have.
fn merged<L: Ledger, B: Ledger, N: DeskName>(passes: Vec<Pass<L, B, N>>) -> (Share<L>, Share<B>)
    requires { 0 < vec_len passes }
    ensures calls { (result.0.parts ≡ vec_len passes) × (result.0.amount ≡ sum_by (λ (p : Counts). p.calls) passes.items) }
    ensures samples { (result.1.parts ≡ vec_len passes) × (result.1.amount ≡ sum_by (λ (p : Counts). p.booked) passes.items) }
{
    let mut rest = passes;
    let Some(last) = rest.pop() else {
        unreachable!()
    };
    let (mut call_share, mut sample_share) = last.into_shares();
    while let Some(pass) = rest.pop() {
        let (more_calls, more_samples) = pass.into_shares();
        call_share.merge(more_calls);
        sample_share.merge(more_samples);
    }
    (call_share, sample_share)
}
