//! Collectors that join, drain, get other limits of their own, and leave.
ghost use Rattle.std.specs.Prelude.{◌≡◌, None, IfOk, OnOk, OnErr};
ghost use Rattle.allocation_core.specs.Steps.{answer_of, draining_answer, joining_answer, limiting_answer, refusal_of, state_after, undrained, unjoined, unlimited};
ghost use Rattle.fleet_events.specs.declared.event.Event.TheVariants.{Drain, Join, Leave, SetLimits};

use super::Core;
use fleet::{DrainRefusal, Draining, JoinRefusal, Joining, Limiting, LimitsRefusal};
use fleet_events::{Answer, CollectorId, Refusal};
use reach_rules::{CollectorName, OwnLimits, Reach};
use std::alloc::AllocError;

impl Core {
    /// A collector joins. Memory is wanted only after all checks.
    pub(super) fn join(
        &mut self,
        name: CollectorName,
        reach: Reach,
        limits: OwnLimits,
    ) -> Result<Answer, AllocError>
        ensures answer { IfOk result (λ a. a ≡ answer_of self.old (Join name reach limits)) }
        ensures state { OnOk result (self.new ≡ state_after self.old (Join name reach limits)) }
        ensures err { OnErr result (self.new ≡ self.old) }
        ensures late { OnErr result (refusal_of self.old (Join name reach limits) ≡ None) }
    {
        let joining = self.fleet.join(name, reach, limits)?;
        Ok(answer_to_joining(joining))
    }

    /// A collector is to be emptied. It takes no memory.
    pub(super) fn drain(&mut self, id: CollectorId) -> Answer
        ensures answer { result ≡ answer_of self.old (Drain id) }
        ensures state { self.new ≡ state_after self.old (Drain id) }
    {
        let draining = self.fleet.drain(id);
        answer_to_draining(draining)
    }

    /// A collector has other limits of its own. It takes no memory.
    pub(super) fn set_limits(&mut self, id: CollectorId, limits: OwnLimits) -> Answer
        ensures answer { result ≡ answer_of self.old (SetLimits id limits) }
        ensures state { self.new ≡ state_after self.old (SetLimits id limits) }
    {
        let limiting = self.fleet.set_limits(id, limits);
        answer_to_limiting(limiting)
    }

    /// A collector leaves. It takes no memory.
    pub(super) fn leave(&mut self, id: CollectorId) -> Answer
        ensures answer { result ≡ answer_of self.old (Leave id) }
        ensures state { self.new ≡ state_after self.old (Leave id) }
    {
        if !self.fleet.leave(id) {
            return Answer::Not(Refusal::UnknownCollector);
        }
        Answer::Left
    }
}

fn answer_to_joining(joining: Joining) -> Answer
    ensures { result ≡ joining_answer joining }
{
    match joining {
        Joining::Joined(id) => Answer::Joined(id),
        Joining::Refused(refusal) => Answer::Not(unjoined(refusal)),
    }
}

fn unjoined(refusal: JoinRefusal) -> Refusal
    ensures { result ≡ unjoined refusal }
{
    match refusal {
        JoinRefusal::UnknownJob => Refusal::UnknownJob,
        JoinRefusal::AlreadyJoined(id) => Refusal::AlreadyJoined(id),
        JoinRefusal::TooManyCollectors => Refusal::TooManyCollectors,
        JoinRefusal::IdsSpent => Refusal::IdsSpent,
    }
}

fn answer_to_draining(draining: Draining) -> Answer
    ensures { result ≡ draining_answer draining }
{
    match draining {
        Draining::Drains => Answer::Draining,
        Draining::Refused(refusal) => Answer::Not(undrained(refusal)),
    }
}

fn undrained(refusal: DrainRefusal) -> Refusal
    ensures { result ≡ undrained refusal }
{
    match refusal {
        DrainRefusal::UnknownCollector => Refusal::UnknownCollector,
        DrainRefusal::AlreadyDraining => Refusal::AlreadyDraining,
    }
}

fn answer_to_limiting(limiting: Limiting) -> Answer
    ensures { result ≡ limiting_answer limiting }
{
    match limiting {
        Limiting::LimitsSet => Answer::LimitsSet,
        Limiting::Refused(refusal) => Answer::Not(unlimited(refusal)),
    }
}

fn unlimited(refusal: LimitsRefusal) -> Refusal
    ensures { result ≡ unlimited refusal }
{
    match refusal {
        LimitsRefusal::UnknownCollector => Refusal::UnknownCollector,
        LimitsRefusal::UnknownJob => Refusal::UnknownJob,
    }
}
