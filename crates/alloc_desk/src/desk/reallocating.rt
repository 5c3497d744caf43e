//! Reallocation: the search runs without the lock.
ghost use Rattle.std.specs.Prelude.{◌≡◌, ◌+◌, ◌≤◌, Err, IfOk, OnOk, OnErr};
ghost use Rattle.price_certificate.specs.Certificate.{IsCertified};
ghost use Rattle.alloc_desk.specs.Reached.{IsFull, Reached};
ghost use Rattle.alloc_desk.specs.Reallocating.{CameTo, Ended};

use crate::attempt::{Attempt, Lost, ReallocateError, Reallocated, attempted};
use crate::desk::Desk;
use crate::name::DeskName;
use crate::pass::Pass;
use crate::record::EnterError;
use allocation_core::{Event, answers_fit};
use assign_engine::solve;
use lists::Plain;
use price_certificate::{Instance, Plan};
use std::alloc::{AllocError, Global};
use std::sync::Wait;
use std::sync::ledger::Ledger;

impl<L: Ledger, B: Ledger, N: DeskName> Desk<L, B, N> {
    /// Finds a best plan for the state at hand and installs it, again while it is refused since other events came between, and at
    /// most so many times. The lock is held for the reading of the instance and for each Install, with the check of its plan; not
    /// while a plan is searched. What was submitted stays in the journal.
    pub fn reallocate(
        &self,
        rt: &impl Wait,
        alloc: Global,
        pass: &mut Pass<L, B, N>,
        tries: u32,
    ) -> Result<Reallocated, ReallocateError>
        ensures least { pass.old.calls ≤ pass.new.calls }
        ensures most { pass.new.calls ≤ pass.old.calls + tries }
        ensures booked { pass.new.booked ≡ pass.old.booked }
        ensures seat { pass.new.seat ≡ pass.old.seat }
        ensures ended { Ended N.opening pass.old pass.new tries result }
    {
        let mut lost: Option<Lost> = None;
        for _turn in 0..tries {
            match self.attempt(rt, alloc, pass) {
                Ok(Attempt::Published(number)) => {
                    drop(lost);
                    return Ok(Reallocated::Published(number));
                }
                Ok(Attempt::Unchanged(number)) => {
                    drop(lost);
                    return Ok(Reallocated::Unchanged(number));
                }
                Ok(Attempt::NumbersSpent) => {
                    drop(lost);
                    return Err(ReallocateError::NumbersSpent);
                }
                Ok(Attempt::Lost(last)) => drop(std::mem::replace(&mut lost, Some(last))),
                Err(EnterError::JournalFull) => {
                    drop(lost);
                    return Err(ReallocateError::JournalFull);
                }
                Err(EnterError::Memory) => {
                    drop(lost);
                    return Err(ReallocateError::Memory);
                }
            }
        }
        Err(ReallocateError::Overtaken(lost))
    }

    /// One attempt: an instance, a plan for it without the lock, and its Install.
    fn attempt(
        &self,
        rt: &impl Wait,
        alloc: Global,
        pass: &mut Pass<L, B, N>,
    ) -> Result<Attempt, EnterError>
        ensures came_to { IfOk result (λ a. CameTo N.opening pass.old a) }
        ensures counts { OnOk result (pass.new ≡ record { seat = pass.old.seat; calls = pass.old.calls + 1; booked = pass.old.booked }) }
        ensures full { result ≡ Err EnterError.JournalFull → Reached N.opening pass.old IsFull }
        ensures err { OnErr result (pass.new ≡ pass.old) }
    {
        answers_fit();
        let Ok(instance) = self.instance(rt, pass) else {
            return Err(EnterError::Memory);
        };
        let Ok((plan, twin)) = plan_for(alloc, &instance) else {
            drop(instance);
            return Err(EnterError::Memory);
        };
        match self.submit(rt, pass, Event::Install(twin)) {
            Ok(receipt) => Ok(attempted(&receipt.answer, instance, plan)),
            Err(error) => {
                drop((instance, plan));
                Err(error)
            }
        }
    }
}

/// A certified plan, twice.
fn plan_for(alloc: Global, instance: &Instance) -> Result<(Plan, Plan), AllocError>
    ensures certified { IfOk result (λ p. IsCertified instance.now p.0.pairs p.0.item_prices p.0.bin_prices) }
    ensures copy { IfOk result (λ p. p.1 ≡ p.0) }
{
    let (plan, _work) = solve(alloc, instance)?;
    match plan.copy() {
        Ok(copy) => Ok((plan, copy)),
        Err(error) => {
            drop(plan);
            Err(error)
        }
    }
}
