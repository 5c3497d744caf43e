//! Events that a session enters.
ghost use Rattle.std.specs.Prelude.{◌≡◌, ◌≤◌, [], All, Contains, IfErr, IfOk};
ghost use Rattle.session_rounds.specs.Beginnings.{BooksNothing};
ghost use Rattle.session_rounds.specs.Stops.{IsListed, IsQuietStop, IsStop};

use crate::stop::{SessionStop, stop_of};
use alloc_desk::{Desk, DeskName, Pass};
use allocation_core::{Answer, Event};
use lists::Plain;
use relabel::{Found, Rules};
use sd_documents::Job;
use std::alloc::{AllocError, Global};
use std::sync::Wait;
use std::sync::ledger::Ledger;

/// How often a plan is searched at most until it is not overtaken.
const TRIES: u32 = 8;

/// Enters an event that is not to be refused.
pub(crate) fn enter<L: Ledger, B: Ledger, N: DeskName, R: Wait>(
    desk: &Desk<L, B, N>,
    rt: &R,
    pass: &mut Pass<L, B, N>,
    event: Event,
) -> Result<(), SessionStop>
    ensures stopped { IfErr result (IsStop N.opening pass.old pass.new (λ e. e ≡ event) []) }
    ensures grown { pass.old.calls ≤ pass.new.calls }
    ensures booked { BooksNothing event → pass.new.booked ≡ pass.old.booked }
    ensures seat { pass.new.seat ≡ pass.old.seat }
{
    let receipt = desk.submit(rt, pass, event)?;
    if matches!(&receipt.answer, Answer::Not(_)) {
        return Err(SessionStop::Refused(receipt.answer));
    }
    drop(receipt);
    Ok(())
}

/// Has the collectors join.
pub(crate) fn enter_joins<L: Ledger, B: Ledger, N: DeskName, R: Wait>(
    desk: &Desk<L, B, N>,
    rt: &R,
    pass: &mut Pass<L, B, N>,
    joins: &[Event],
) -> Result<(), SessionStop>
    ensures stopped { IfErr result (IsStop N.opening pass.old pass.new (Contains joins.now) []) }
    ensures grown { pass.old.calls ≤ pass.new.calls }
    ensures booked { All BooksNothing joins.now → pass.new.booked ≡ pass.old.booked }
    ensures seat { pass.new.seat ≡ pass.old.seat }
{
    for join in joins {
        let join = join.copy()?;
        enter(desk, rt, pass, join)?;
    }
    Ok(())
}

/// What the static groups of a job list.
pub(crate) fn static_targets(alloc: Global, job: &Job, rules: &Rules) -> Result<Event, AllocError>
    ensures listed { IfOk result (IsListed job.now rules.now) }
    ensures books_nothing { IfOk result BooksNothing }
{
    let Found { targets, .. } = rules.discover(alloc, job, 0, job.static_groups.as_slice())?;
    match job.name.copy() {
        Ok(job) => Ok(Event::Discover {
            job,
            source: 0,
            targets,
        }),
        Err(error) => {
            drop(targets);
            Err(error)
        }
    }
}

/// Finds a best allocation for the moment.
pub(crate) fn reallocate<L: Ledger, B: Ledger, N: DeskName, R: Wait>(
    desk: &Desk<L, B, N>,
    rt: &R,
    alloc: Global,
    pass: &mut Pass<L, B, N>,
) -> Result<(), SessionStop>
    ensures stopped { IfErr result (IsQuietStop N.opening []) }
    ensures grown { pass.old.calls ≤ pass.new.calls }
    ensures booked { pass.new.booked ≡ pass.old.booked }
    ensures seat { pass.new.seat ≡ pass.old.seat }
{
    match desk.reallocate(rt, alloc, pass, TRIES) {
        Ok(_) => Ok(()),
        Err(fault) => stop_of(&fault),
    }
}
