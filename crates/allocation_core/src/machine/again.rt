//! Events that change nothing, and what they are answered.
ghost use Rattle.std.specs.Prelude.{◌≡◌, Some, true, IfOk};
ghost use Rattle.allocation_core.specs.State.{was_given};
ghost use Rattle.allocation_core.specs.Steps.{place_of};
ghost use Rattle.allocation_core.specs.Idle.{IsIdle};
ghost use Rattle.fleet_events.specs.declared.event.Event.TheVariants.{Serve, Take};

use super::Core;
use fleet_events::{Answer, CollectorId, Event};
use std::alloc::AllocError;

impl Core {
    /// What an event is answered that changes nothing: a take of the allocation that was taken last, and a list that is served as it was
    /// served last. Nothing is said of others, though they may change nothing either.
    pub fn unchanged(&self, event: &Event) -> Result<Option<Answer>, AllocError>
        ensures { IfOk result (IsIdle self.now event.now) }
    {
        match event {
            Event::Take(collector) => self.taken_again(*collector),
            Event::Serve { collector, job } => self.served_again(*collector, job.as_str()),
            _ => Ok(None),
        }
    }

    /// The same of a take.
    fn taken_again(&self, id: CollectorId) -> Result<Option<Answer>, AllocError>
        ensures { IfOk result (IsIdle self.now (Take id)) }
    {
        let allocation = self.holders.current();
        if !self.fleet.is_joined(id) || allocation == 0 || self.holders.taken(id) != allocation {
            return Ok(None);
        }
        let held = self.held(id)?;
        let round = self.round;
        Ok(Some(Answer::Taken {
            allocation,
            round,
            held,
        }))
    }

    /// The same of a list that is served.
    fn served_again(&self, id: CollectorId, name: &str) -> Result<Option<Answer>, AllocError>
        ensures { IfOk result (IsIdle self.now (Serve id name.now)) }
    {
        match self.place_of(name) {
            Some(job) if self.was_given(id) => self.listed_again(id, name, job),
            _ => Ok(None),
        }
    }

    #[tactic(auto, unfolding(crate::specs::Steps::answer_of, crate::specs::Steps::state_after))]
    fn listed_again(
        &self,
        id: CollectorId,
        name: &str,
        job: usize,
    ) -> Result<Option<Answer>, AllocError>
        requires place { place_of self.now name.now ≡ Some job }
        requires given { was_given self.now id ≡ true }
        ensures { IfOk result (IsIdle self.now (Serve id name.now)) }
    {
        let held = self.held_live(id)?;
        let allocation = self.holders.current();
        let known = self.fleet.known();
        if !self
            .served
            .is_unchanged(known, id, job, allocation, held.as_slice())?
        {
            return Ok(None);
        }
        let list = self.served.list(known, id, job, held.as_slice())?;
        Ok(Some(Answer::Served {
            allocation,
            round: self.round,
            listed: list.listed,
            left_out: list.left_out,
        }))
    }
}
