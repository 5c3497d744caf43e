//! A collector's turn.
ghost use Rattle.std.specs.Prelude.{◌≡◌, ◌≢◌, ◌+◌, Err};
ghost use Rattle.alloc_desk.specs.Reached.{IsFull, Reached};
ghost use Rattle.collector_pool.specs.Turns.{Turned, Worked};

use crate::gate::Gate;
use crate::visit::{Taken, visit};
use alloc_desk::{Desk, DeskName, EnterError, Pass};
use allocation_core::{Answer, CollectorId, Event, TargetId, answers_fit};
use fleet_events::AllocationNumber;
use http_get::Scrape;
use sd_documents::Job;
use std::alloc::Global;
use std::sync::Wait;
use std::sync::ledger::Ledger;

/// How a turn ended.
#[derive(Clone, Copy, PartialEq, Eq)]
pub enum TurnEnd {
    /// All targets that the collector holds are reported.
    Complete,
    /// No live collector has the number, so nothing was taken.
    NotJoined,
    /// The journal has its most entries.
    JournalFull,
    /// No memory was left.
    Memory,
}

/// What a turn did.
#[derive(Clone, Copy, PartialEq, Eq)]
pub struct Turn {
    /// The number of the allocation that was taken, 0 where nothing was.
    pub number: AllocationNumber,
    /// How many reports were booked.
    pub booked: u32,
    /// How many were refused.
    pub refused: u32,
    /// The samples of those that were booked.
    pub samples: u64,
    pub end: TurnEnd,
}

/// One turn of a collector: it takes its targets, and then scrapes and reports one after the other. A target that can't be asked
/// is reported as Down. The desk's lock is not held while a target is fetched. What was reported before the turn ended stays.
pub fn collector_turn<L: Ledger, B: Ledger, N: DeskName, S: Scrape, G: Gate, R: Wait>(
    desk: &Desk<L, B, N>,
    rt: &R,
    alloc: Global,
    pass: &mut Pass<L, B, N>,
    jobs: &[Job],
    id: CollectorId,
    scrape: &mut S,
    gate: &G,
) -> Turn
    ensures turned { Turned S.may_fetch N.opening pass.old pass.new jobs.now id scrape.old scrape.new result }
    ensures booked { pass.new.booked ≡ pass.old.booked + result.samples }
    ensures seat { pass.new.seat ≡ pass.old.seat }
    ensures full { result.end ≡ TurnEnd.JournalFull → Reached N.opening pass.new IsFull }
{
    answers_fit();
    match desk.submit(rt, pass, Event::Take(id)) {
        Ok(receipt) => match &receipt.answer {
            Answer::Taken {
                allocation,
                round,
                held,
            } => {
                let taken = Taken {
                    collector: id,
                    allocation: *allocation,
                    round: *round,
                };
                visit_all(
                    desk,
                    rt,
                    alloc,
                    pass,
                    jobs,
                    taken,
                    held.as_slice(),
                    scrape,
                    gate,
                )
            }
            _ => nothing(TurnEnd::NotJoined),
        },
        Err(fault) => nothing(end_of(fault)),
    }
}

/// A turn that took nothing.
fn nothing(end: TurnEnd) -> Turn
    ensures { result ≡ record { number = 0; booked = 0; refused = 0; samples = 0; end = end } }
{
    Turn {
        number: 0,
        booked: 0,
        refused: 0,
        samples: 0,
        end,
    }
}

fn end_of(fault: EnterError) -> TurnEnd
    ensures full { fault ≡ EnterError.JournalFull → result ≡ TurnEnd.JournalFull }
    ensures memory { fault ≡ EnterError.Memory → result ≡ TurnEnd.Memory }
    ensures stops { (result ≢ TurnEnd.Complete) × (result ≢ TurnEnd.NotJoined) }
{
    match fault {
        EnterError::JournalFull => TurnEnd::JournalFull,
        EnterError::Memory => TurnEnd::Memory,
    }
}

/// Visits all targets that were taken, in order.
fn visit_all<L: Ledger, B: Ledger, N: DeskName, S: Scrape, G: Gate, R: Wait>(
    desk: &Desk<L, B, N>,
    rt: &R,
    alloc: Global,
    pass: &mut Pass<L, B, N>,
    jobs: &[Job],
    taken: Taken,
    held: &[TargetId],
    scrape: &mut S,
    gate: &G,
) -> Turn
    ensures worked { Worked S.may_fetch N.opening pass.old jobs.now taken.collector taken.round held.now scrape.old scrape.new result }
    ensures number { result.number ≡ taken.allocation }
    ensures calls { pass.new.calls ≡ pass.old.calls + (result.booked + result.refused) }
    ensures booked { pass.new.booked ≡ pass.old.booked + result.samples }
    ensures seat { pass.new.seat ≡ pass.old.seat }
    ensures full { result.end ≡ TurnEnd.JournalFull → Reached N.opening pass.new IsFull }
{
    let start = pass.booked();
    let mut booked = 0;
    let mut refused = 0;
    for target in held {
        match visit(desk, rt, alloc, pass, jobs, taken, *target, scrape, gate) {
            Ok(tally) => {
                booked += tally.booked;
                refused += tally.refused;
            }
            Err(fault) => {
                return Turn {
                    number: taken.allocation,
                    booked,
                    refused,
                    samples: pass.booked() - start,
                    end: end_of(fault),
                };
            }
        }
    }
    Turn {
        number: taken.allocation,
        booked,
        refused,
        samples: pass.booked() - start,
        end: TurnEnd::Complete,
    }
}
