//! The instance of a moment, and the plans that are installed.
ghost use Rattle.std.specs.Prelude.{◌≡◌, ◌+◌, IfOk, OnOk, OnErr, if◌then◌else◌, is_some};
ghost use Rattle.price_certificate.specs.Faults.{fault_of};
ghost use Rattle.fleet.specs.Fleet.{live_of};
ghost use Rattle.allocation_core.specs.State.{allocation_at, current_of, instance_at};
ghost use Rattle.allocation_core.specs.Steps.{answer_by, answer_of, number_refusal, same_pairs, state_after, with_plan};
ghost use Rattle.allocation_core.specs.Installed.{IsCertifiedNow, IsCertifiedWithin, IsInstalled};
ghost use Rattle.fleet_events.specs.declared.event.Event.TheVariants.{Install};
ghost use Rattle.fleet_events.specs.declared.answer.Answer.TheVariants.{Published};

use super::Core;
use fleet_assignment::{build_allocation, build_instance, instances_are_problems};
use fleet_events::{Answer, Event, Refusal};
use handover::HoldersError;
use price_certificate::{Fault, Instance, Plan, Verdict, check, no_fault_is_certified};
use spread_certificate::{Spread, check_spread, no_best_fault_is_certified};
use std::alloc::{AllocError, Global};

impl Core {
    /// The assignment problem of this moment.
    pub fn instance(&self) -> Result<Instance, AllocError>
        ensures { IfOk result (λ i. i ≡ instance_at self.now) }
    {
        let live = self.fleet.live()?;
        build_instance(
            self.alloc,
            &self.fleet,
            live.as_slice(),
            self.holders.current_pairs(),
        )
    }

    /// A plan is published, where the check against the instance of this moment finds no fault.
    #[tactic(auto, unfolding(crate::specs::Steps::answer_of, crate::specs::Steps::state_after))]
    pub(super) fn install(&mut self, plan: Plan) -> Result<Answer, AllocError>
        ensures answer { IfOk result (λ a. a ≡ answer_of self.old (Install plan)) }
        ensures state { OnOk result (self.new ≡ state_after self.old (Install plan)) }
        ensures err { OnErr result (self.new ≡ self.old) }
        ensures certified { IsCertifiedNow self.old plan → IfOk result (IsInstalled self.old) }
    {
        no_fault_is_certified();
        instances_are_problems();
        let live = match self.fleet.live() {
            Ok(live) => live,
            Err(error) => {
                drop(plan);
                return Err(error);
            }
        };
        let before = self.holders.current_pairs();
        let instance = match build_instance(self.alloc, &self.fleet, live.as_slice(), before) {
            Ok(instance) => instance,
            Err(error) => {
                drop((live, plan));
                return Err(error);
            }
        };
        match fault_in(self.alloc, &instance, &plan) {
            Ok(None) => {
                let answer = self.publish(live.as_slice(), instance, plan);
                drop(live);
                answer
            }
            Ok(Some(fault)) => {
                drop((live, instance, plan));
                Ok(Answer::Not(Refusal::Refused(fault)))
            }
            Err(error) => {
                drop((live, instance, plan));
                Err(error)
            }
        }
    }

    /// A plan within caps is published, where the judge finds no fault of it at the instance of this moment.
    #[tactic(auto, using(crate::proofs::InstalledLemmas::caps_of_fine), unfolding(crate::specs::Steps::answer_of, crate::specs::Steps::state_after))]
    pub(super) fn spread(&mut self, spread: Spread) -> Result<Answer, AllocError>
        ensures answer { IfOk result (λ a. a ≡ answer_of self.old (Event.Spread spread)) }
        ensures state { OnOk result (self.new ≡ state_after self.old (Event.Spread spread)) }
        ensures err { OnErr result (self.new ≡ self.old) }
        ensures certified { IsCertifiedWithin self.old spread → IfOk result (IsInstalled self.old) }
    {
        no_best_fault_is_certified();
        instances_are_problems();
        let live = match self.fleet.live() {
            Ok(live) => live,
            Err(error) => {
                drop(spread);
                return Err(error);
            }
        };
        let before = self.holders.current_pairs();
        let instance = match build_instance(self.alloc, &self.fleet, live.as_slice(), before) {
            Ok(instance) => instance,
            Err(error) => {
                drop((live, spread));
                return Err(error);
            }
        };
        match check_spread(self.alloc, &instance, &spread) {
            Ok(None) => {}
            Ok(Some(fault)) => {
                drop((live, instance, spread));
                return Ok(Answer::Not(Refusal::RefusedSpread(fault)));
            }
            Err(error) => {
                drop((live, instance, spread));
                return Err(error);
            }
        }
        match instance.capped(self.alloc, spread.caps.as_slice()) {
            Ok(capped) => {
                drop(instance);
                let answer = self.publish(live.as_slice(), capped, plan_of(spread));
                drop(live);
                answer
            }
            Err(error) => {
                drop((live, instance, spread));
                Err(error)
            }
        }
    }

    /// The allocation of a plan is published, with the instance that its prices certify it for, unless it is the current one. The live
    /// targets are given.
    fn publish(
        &mut self,
        live: &[usize],
        instance: Instance,
        plan: Plan,
    ) -> Result<Answer, AllocError>
        requires { live.now ≡ live_of self.old.fleet }
        ensures answer { IfOk result (λ a. a ≡ answer_by (number_refusal self.old (allocation_at self.old plan.pairs)) (Published (current_of self.old + 1))) }
        ensures state { OnOk result (self.new ≡ (if is_some (number_refusal self.old (allocation_at self.old plan.pairs)) then self.old else with_plan self.old instance plan)) }
        ensures err { OnErr result (self.new ≡ self.old) }
        ensures installed { IfOk result (IsInstalled self.old) }
    {
        let pairs = match build_allocation(self.alloc, &self.fleet, live, plan.pairs.as_slice()) {
            Ok(pairs) => pairs,
            Err(error) => {
                drop((instance, plan));
                return Err(error);
            }
        };
        if same_pairs(pairs.as_slice(), self.holders.current_pairs()) {
            drop((pairs, instance, plan));
            return Ok(Answer::Not(Refusal::Unchanged(self.holders.current())));
        }
        match self.holders.publish(pairs) {
            Ok(number) => {
                drop(std::mem::replace(&mut self.instance, instance));
                drop(std::mem::replace(&mut self.plan, plan));
                Ok(Answer::Published(number))
            }
            Err(HoldersError::NumbersSpent) => {
                drop((instance, plan));
                Ok(Answer::Not(Refusal::NumbersSpent))
            }
            Err(_) => {
                drop((instance, plan));
                Err(AllocError)
            }
        }
    }
}

/// The plan of a spread.
fn plan_of(spread: Spread) -> Plan
    ensures { result ≡ spread.plan }
{
    spread.plan
}

/// The first fault of a plan.
fn fault_in(alloc: Global, instance: &Instance, plan: &Plan) -> Result<Option<Fault>, AllocError>
    ensures { IfOk result (λ f. f ≡ fault_of instance.now plan.now.pairs plan.now.item_prices plan.now.bin_prices) }
{
    match check(alloc, instance, plan)? {
        Verdict::Refused(fault) => Ok(Some(fault)),
        Verdict::Best { .. } => Ok(None),
    }
}

fn same_pairs(pairs: &[(u32, u32)], others: &[(u32, u32)]) -> bool
    ensures { result ≡ same_pairs pairs.now others.now }
{
    pairs == others
}
