//! Rounds that open, and allocations that are taken.
ghost use Rattle.std.specs.Prelude.{◌≡◌, None, IfOk, OnOk, OnErr};
ghost use Rattle.allocation_core.specs.Steps.{answer_of, refusal_of, state_after};
ghost use Rattle.fleet_events.specs.declared.event.Event.TheVariants.{NextRound, Take};

use super::Core;
use crate::limits::LAST_ROUND;
use fleet_events::{Answer, CollectorId, Refusal};
use std::alloc::AllocError;

impl Core {
    /// The next round opens. It takes no memory.
    #[tactic(auto, unfolding(crate::specs::Steps::answer_of, crate::specs::Steps::state_after))]
    pub(super) fn next_round(&mut self) -> Answer
        ensures answer { result ≡ answer_of self.old NextRound }
        ensures state { self.new ≡ state_after self.old NextRound }
    {
        if self.round >= LAST_ROUND {
            return Answer::Not(Refusal::RoundsSpent);
        }
        self.round += 1;
        Answer::RoundOpen(self.round)
    }

    /// A collector takes the current allocation. Memory is wanted only after the check.
    #[tactic(auto, unfolding(crate::specs::Steps::answer_of, crate::specs::Steps::state_after))]
    pub(super) fn take(&mut self, id: CollectorId) -> Result<Answer, AllocError>
        ensures answer { IfOk result (λ a. a ≡ answer_of self.old (Take id)) }
        ensures state { OnOk result (self.new ≡ state_after self.old (Take id)) }
        ensures err { OnErr result (self.new ≡ self.old) }
        ensures late { OnErr result (refusal_of self.old (Take id) ≡ None) }
    {
        if !self.fleet.is_joined(id) {
            return Ok(Answer::Not(Refusal::UnknownCollector));
        }
        let held = self.held(id)?;
        let allocation = self.holders.current();
        if self.holders.take(id, allocation).is_err() {
            return Err(AllocError);
        }
        let round = self.round;
        Ok(Answer::Taken {
            allocation,
            round,
            held,
        })
    }
}
