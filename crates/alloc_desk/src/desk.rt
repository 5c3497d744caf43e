//! The allocator under its lock.
ghost use Rattle.std.specs.Prelude.{◌≡◌, ◌≢◌, ◌↔◌, ◌+◌, ◌<◌, ◌≤◌, sum_by, vec_len, length, Err, IfOk, IfErr, OnErr, IsErr};
ghost use Rattle.std.specs.Sync.Mutex.{mutex_guard_value};
ghost use mathlib.Core.List.{IsPrefix};
ghost use Rattle.scrape_books.specs.Books.{total_of};
ghost use Rattle.allocation_core.specs.Steps.{gained};
ghost use Rattle.alloc_desk.specs.Counts.{Counts, first_counts};
ghost use Rattle.alloc_desk.specs.History.{end_of};
ghost use Rattle.journal_entries.specs.Legal.{IsLegal};
ghost use Rattle.alloc_desk.specs.Reached.{IsFull, IsReceipt, Reached};
ghost use Rattle.alloc_desk.specs.declared.limits.TheConstants.{MOST_PASSES};

mod reading;
mod reallocating;
mod spreading;

use crate::closed::Closed;
use crate::front::Front;
use crate::locked_record::LockedRecord;
use crate::log::Log;
use crate::name::{DeskName, Fits};
use crate::pass::Pass;
use crate::receipt::Receipt;
use crate::record::{EnterError, Record};
use allocation_core::{Core, Event};
use std::alloc::Global;
use std::marker::PhantomData;
use std::sync::ledger::{Blank, Ledger};
use std::sync::{Mutex, MutexGuard, Wait};

/// The allocator under its lock, with the journal of all events. `L` and `B` are the ledgers of the passes' calls and of the samples
/// that they booked, `N` says which desk it is.
#[derive(Drop)]
pub struct Desk<L: Ledger, B: Ledger, N: DeskName> {
    locked: Mutex<LockedRecord<L, B, N>>,
    passes: u32,
    calls_fit: Fits<L, N>,
    samples_fit: Fits<B, N>,
    ghost all_seats: { passes ≡ N.seats },
    ghost some: { 0 < passes },
}

/// The desk, and passes that are not all of its own.
#[derive(Drop)]
pub struct PassMissing<L: Ledger, B: Ledger, N: DeskName> {
    pub desk: Desk<L, B, N>,
    pub passes: Vec<Pass<L, B, N>>,
}

impl<L: Ledger, B: Ledger, N: DeskName> Desk<L, B, N> {
    /// A desk with its passes, in order of their seats, or the allocator back where no memory was left.
    pub fn open(
        alloc: Global,
        core: Core,
        passes: u32,
        calls: Blank,
        samples: Blank,
        log: Log,
    ) -> Result<(Desk<L, B, N>, Vec<Pass<L, B, N>>), Core>
        requires core { core ≡ N.opening }
        requires passes { (passes ≡ N.seats) × (0 < passes) × (passes ≤ MOST_PASSES) }
        requires calls { (calls.name ≡ L.name) × (calls.parts ≡ L.parts) × (L.parts ≡ N.seats) }
        requires samples { (samples.name ≡ B.name) × (samples.parts ≡ B.parts) × (B.parts ≡ N.seats) }
        requires log { log ≡ N.book }
        ensures count { IfOk result (λ r. vec_len r.1 ≡ passes) }
        ensures passes { IfOk result (λ r. r.1.items ≡ first_counts passes) }
        ensures core { IfErr result (λ c. c ≡ core) }
    {
        let Ok(mut all) = Vec::with_capacity(alloc, passes as usize) else {
            return Err(core);
        };
        let (calls, mut call_share) = calls.open::<L>();
        let (samples, mut sample_share) = samples.open::<B>();
        for seat in 0..passes {
            let pass = Pass::new(
                seat,
                call_share.split_off(1, 0),
                sample_share.split_off(1, 0),
            );
            all.push_reserved(pass);
        }
        let locked = LockedRecord::new(Record::open(alloc, core), calls, samples, log);
        Ok((
            Desk {
                locked: Mutex::new(locked),
                passes,
                calls_fit: Fits { of: PhantomData },
                samples_fit: Fits { of: PhantomData },
            },
            all,
        ))
    }

    /// Enters an event for a pass. What is refused is in the journal too; where the journal is full or memory is wanted, nothing
    /// happened.
    pub fn submit(
        &self,
        rt: &impl Wait,
        pass: &mut Pass<L, B, N>,
        event: Event,
    ) -> Result<Receipt, EnterError>
        ensures answered { IfOk result (λ r. Reached N.opening pass.old (IsReceipt event pass.old r)) }
        ensures counts { IfOk result (λ r. pass.new ≡ record { seat = pass.old.seat; calls = pass.old.calls + 1; booked = pass.old.booked + gained event r.answer }) }
        ensures full { result ≡ Err EnterError.JournalFull → Reached N.opening pass.old IsFull }
        ensures err { OnErr result (pass.new ≡ pass.old) }
    {
        self.locked.lock(rt).submit(rt, pass, event)
    }

    /// What the journal has now.
    pub fn front(&self, rt: &impl Wait) -> Front<N>
        ensures { IsLegal N.opening result (end_of N.opening result) }
    {
        self.locked.lock(rt).front().again()
    }

    /// What lies under the lock, once its journal has all that a front has seen. It has it at the first look, since the front is of an
    /// earlier one.
    pub(crate) fn locked_past(
        &self,
        rt: &impl Wait,
        front: &Front<N>,
    ) -> MutexGuard<'_, LockedRecord<L, B, N>>
        ensures { IsPrefix front.now (mutex_guard_value result).journal }
    {
        for _look in rt.forever() {
            let locked = self.locked.lock(rt);
            if locked.front().covers(front) {
                return locked;
            }
        }
        unreachable!()
    }

    /// The state and the journal, where all passes came back; else the desk and the passes.
    pub fn close(self, passes: Vec<Pass<L, B, N>>) -> Result<Closed<N>, PassMissing<L, B, N>>
        ensures legal { IfOk result (λ c. IsLegal N.opening c.journal c.state) }
        ensures length { IfOk result (λ c. length c.journal ≡ sum_by (λ (p : Counts). p.calls) passes.items) }
        ensures total { IfOk result (λ c. total_of c.state.booked ≡ total_of N.opening.booked + sum_by (λ (p : Counts). p.booked) passes.items) }
        ensures missing { IsErr result ↔ (vec_len passes ≢ N.seats) }
        ensures back { IfErr result (λ e. e.passes.items ≡ passes.items) }
    {
        if passes.len() != self.passes as usize {
            return Err(PassMissing { desk: self, passes });
        }
        let Desk {
            locked,
            passes: _,
            calls_fit: _,
            samples_fit: _,
        } = self;
        Ok(locked.into_inner().finish(passes))
    }
}
