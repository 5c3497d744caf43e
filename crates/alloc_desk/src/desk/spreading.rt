//! Reallocation that makes loads even: the search runs without the lock.
ghost use Rattle.std.specs.Prelude.{◌≡◌, ◌+◌, ◌≤◌, Err, IfOk, OnOk, OnErr, length};
ghost use Rattle.alloc_desk.specs.Reached.{IsFull, Reached};
ghost use Rattle.alloc_desk.specs.Spreading.{CameToSpread, EndedSpread, IsFound, IsQuestion};

use crate::attempt::Reallocated;
use crate::desk::Desk;
use crate::name::DeskName;
use crate::pass::Pass;
use crate::record::EnterError;
use crate::spread_attempt::{SpreadAttempt, SpreadError, spread_attempted};
use allocation_core::{Core, Event, answers_fit};
use price_certificate::Instance;
use spread_certificate::Spread;
use spread_engine::{JobEvening, spread_plan};
use std::alloc::{AllocError, Global};
use std::sync::Wait;
use std::sync::ledger::Ledger;

impl<L: Ledger, B: Ledger, N: DeskName> Desk<L, B, N> {
    /// Finds caps that make loads even and cost no coverage, and the best plan within them, for the state at hand, and has them
    /// published, again while they are refused since other events came between, and at most so many times. A collector may have so many
    /// percent more targets than where the loads are the most even, and at most so many targets move for that. How each job is evened
    /// out is told by its place, and a job of which nothing is told is evened out together with others. The lock is held for the
    /// reading of the instance and for each Spread, with the check of it; not while one is searched. What was submitted stays in
    /// the journal.
    pub fn spread(
        &self,
        rt: &impl Wait,
        alloc: Global,
        pass: &mut Pass<L, B, N>,
        tries: u32,
        slack: u32,
        by_job: &[JobEvening],
        most_moves: Option<u32>,
    ) -> Result<Reallocated, SpreadError>
        ensures least { pass.old.calls ≤ pass.new.calls }
        ensures most { pass.new.calls ≤ pass.old.calls + tries }
        ensures booked { pass.new.booked ≡ pass.old.booked }
        ensures seat { pass.new.seat ≡ pass.old.seat }
        ensures ended { EndedSpread N.opening pass.old pass.new tries slack most_moves result }
    {
        let mut lost = None;
        for _turn in 0..tries {
            match self.spread_once(rt, alloc, pass, slack, by_job, most_moves) {
                Ok(SpreadAttempt::Published(number)) => return Ok(Reallocated::Published(number)),
                Ok(SpreadAttempt::Unchanged(number)) => return Ok(Reallocated::Unchanged(number)),
                Ok(SpreadAttempt::NumbersSpent) => return Err(SpreadError::NumbersSpent),
                Ok(SpreadAttempt::Lost(fault)) => lost = Some(fault),
                Err(EnterError::JournalFull) => return Err(SpreadError::JournalFull),
                Err(EnterError::Memory) => return Err(SpreadError::Memory),
            }
        }
        Err(SpreadError::Overtaken(lost))
    }

    /// One attempt: an instance, a spread for it without the lock, and its Spread.
    fn spread_once(
        &self,
        rt: &impl Wait,
        alloc: Global,
        pass: &mut Pass<L, B, N>,
        slack: u32,
        by_job: &[JobEvening],
        most_moves: Option<u32>,
    ) -> Result<SpreadAttempt, EnterError>
        ensures came_to { IfOk result (λ a. CameToSpread N.opening pass.old slack most_moves a) }
        ensures counts { OnOk result (pass.new ≡ record { seat = pass.old.seat; calls = pass.old.calls + 1; booked = pass.old.booked }) }
        ensures full { result ≡ Err EnterError.JournalFull → Reached N.opening pass.old IsFull }
        ensures err { OnErr result (pass.new ≡ pass.old) }
    {
        answers_fit();
        let Ok((instance, jobs)) = self.question(rt, pass) else {
            return Err(EnterError::Memory);
        };
        let Ok(spread) = spread_for(alloc, &instance, jobs, by_job, slack, most_moves) else {
            drop(instance);
            return Err(EnterError::Memory);
        };
        drop(instance);
        let receipt = self.submit(rt, pass, Event::Spread(spread))?;
        Ok(spread_attempted(&receipt.answer))
    }

    /// The assignment problem of the moment, and how many jobs there are then.
    fn question(
        &self,
        rt: &impl Wait,
        pass: &mut Pass<L, B, N>,
    ) -> Result<(Instance, u32), AllocError>
        ensures read { IfOk result (λ q. Reached N.opening pass.old (λ h. IsQuestion h.state q)) }
        ensures same { pass.new ≡ pass.old }
    {
        self.read(rt, pass, |record| question_of(record.core()))
    }
}

/// The assignment problem of a core, and how many jobs it has.
fn question_of(core: &Core) -> Result<(Instance, u32), AllocError>
    ensures { IfOk result (IsQuestion core.now) }
{
    let instance = core.instance()?;
    let jobs = core.fleet().jobs().len() as u32;
    Ok((instance, jobs))
}

/// A spread in which the judge finds no fault.
fn spread_for(
    alloc: Global,
    instance: &Instance,
    jobs: u32,
    by_job: &[JobEvening],
    slack: u32,
    most_moves: Option<u32>,
) -> Result<Spread, AllocError>
    ensures { IfOk result (IsFound instance.now jobs slack most_moves) }
{
    let spread = spread_plan(alloc, instance, jobs, slack, by_job, most_moves)?;
    Ok(spread)
}
