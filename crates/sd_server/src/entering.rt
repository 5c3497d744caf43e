//! What requests change: the events that are entered, and what is noted of them.
ghost use Rattle.std.specs.Prelude.{◌≡◌, IfOk, IfErr};
ghost use Rattle.fleet_events.specs.declared.answer.Answer.TheVariants.{Not};
ghost use Rattle.fleet_events.specs.declared.refusal.Refusal.TheVariants.{UnknownCollector};
ghost use Rattle.sd_routes.specs.declared.change.Change.TheVariants.{Release};
ghost use Rattle.sd_routes.specs.declared.responding.Said.TheVariants.{Answer as Answered};
ghost use Rattle.sd_server.specs.Spans.{IsEntered, Moves, between};
ghost use Rattle.sd_server.specs.Says.{SaysEvent, SaysChange, SaysNot, SaysOfLeft};

use crate::handler::Handler;
use crate::seen::Seen;
use alloc_desk::{EnterError, Receipt};
use allocation_core::{Answer, Event, Refusal};
use fleet_events::CollectorId;
use kept_journal::JournalName;
use lists::Text;
use reach_rules::CollectorName;
use sd_routes::{Change, RequestError, Said};
use service_state::{ChangeNote, EventKind};
use std::alloc::AllocError;
use std::sync::Wait;
use std::sync::ledger::Ledger;
use std::time::Clock;

impl<R: Wait + Clock + Copy, L: Ledger, B: Ledger, N: JournalName> Handler<R, L, B, N> {
    /// It happens to the collector that has the name. Its number is never another's, so where it leaves before, it happens to none.
    #[tactic(auto, unfolding(crate::specs::Says::SaysChange))]
    pub(crate) fn changed(&self, seen: &mut Seen<N>, name: &CollectorName, change: Change) -> Said
        ensures says { SaysChange seen.new name.now change result }
        ensures moves { Moves seen.old seen.new }
    {
        match self.named(seen, name.as_str()) {
            Some(id) => self.entered(seen, change.event(id)),
            None => self.changed_of_left(seen, name.as_str(), change),
        }
    }

    /// Of a collector that left, the lists can be let go.
    fn changed_of_left(&self, seen: &mut Seen<N>, name: &str, change: Change) -> Said
        ensures says { SaysOfLeft seen.new change result }
        ensures moves { Moves seen.old seen.new }
    {
        match change {
            Change::Release => self.released_of_left(seen, name),
            Change::Leave => nobody(seen),
            Change::Drain => nobody(seen),
            Change::SetLimits(limits) => {
                drop(limits);
                nobody(seen)
            }
        }
    }

    fn released_of_left(&self, seen: &mut Seen<N>, name: &str) -> Said
        ensures says { SaysOfLeft seen.new Release result }
        ensures moves { Moves seen.old seen.new }
    {
        match self.left_number(name) {
            Some(id) => self.entered(seen, Change::Release.event(id)),
            None => nobody(seen),
        }
    }

    /// The last number of a collector that had the name, where that is known.
    fn left_number(&self, name: &str) -> Option<CollectorId> {
        let names = self.state.names(&self.rt, self.alloc).ok()?;
        let known = names.iter().find(|known| known.0.as_str() == name)?;
        Some(known.1)
    }

    pub(crate) fn entered(&self, seen: &mut Seen<N>, event: Event) -> Said
        ensures says { SaysEvent seen.new event result }
        ensures moves { Moves seen.old seen.new }
    {
        let change = self.change_of(&event);
        match self.submitted(seen, event) {
            Ok(receipt) => {
                self.note_change(change, &receipt.answer);
                Said::Answer(receipt.answer)
            }
            Err(error) => Said::Refused(error),
        }
    }

    /// Which collector an event is about that changes who collects.
    fn change_of(&self, event: &Event) -> Option<(EventKind, Text)> {
        let collector = match event {
            Event::Join { name, .. } => Text::from_str(self.alloc, name.as_str()),
            Event::Leave(id) | Event::Drain(id) => self.number_text(*id),
            Event::SetLimits { collector, .. } | Event::Release { collector, .. } => {
                self.number_text(*collector)
            }
            _ => return None,
        };
        Some((EventKind::of(event), collector.ok()?))
    }

    fn number_text(&self, id: CollectorId) -> Result<Text, AllocError> {
        Ok(Text::from_string(format!(in self.alloc; "{id}")?))
    }

    /// Notes what a request has changed, or tried to. What finds no memory is not noted.
    fn note_change(&self, change: Option<(EventKind, Text)>, answer: &Answer) {
        if let Some((what, collector)) = change {
            if let Ok(answer) = answer.line(self.alloc) {
                let answer = Text::from_string(answer);
                let peer = self.peer;
                self.state.note_change(
                    &self.rt,
                    ChangeNote {
                        what,
                        collector,
                        answer,
                        peer,
                    },
                );
            }
        }
    }

    /// The receipt of an event that was entered.
    pub(crate) fn submitted(
        &self,
        seen: &mut Seen<N>,
        event: Event,
    ) -> Result<Receipt, RequestError>
        ensures receipt { IfOk result (IsEntered (between seen.old seen.new) event) }
        ensures not { IfErr result (SaysNot seen.new) }
        ensures moves { Moves seen.old seen.new }
    {
        if self.is_broken() {
            drop(event);
            seen.now();
            return Err(RequestError::NotKept);
        }
        let kind = EventKind::of(&event);
        match self.entered_now(seen, event) {
            Ok(receipt) => {
                self.state.count_event(&self.rt, kind, &receipt.answer);
                Ok(receipt)
            }
            Err(error) => Err(error),
        }
    }

    fn entered_now(&self, seen: &mut Seen<N>, event: Event) -> Result<Receipt, RequestError>
        ensures receipt { IfOk result (IsEntered (between seen.old seen.new) event) }
        ensures not { IfErr result (SaysNot seen.new) }
        ensures moves { Moves seen.old seen.new }
    {
        let mut pass = self.pass.lock(&self.rt);
        match seen.latest.submit(&self.rt, &self.desk, &mut *pass, event) {
            Ok(receipt) => Ok(receipt),
            Err(EnterError::JournalFull) => Err(RequestError::JournalFull),
            Err(EnterError::Memory) => Err(RequestError::Memory),
        }
    }
}

fn nobody<N: JournalName>(seen: &mut Seen<N>) -> Said
    ensures says { result ≡ Answered (Not UnknownCollector) }
    ensures moves { Moves seen.old seen.new }
{
    seen.now();
    Said::Answer(Answer::Not(Refusal::UnknownCollector))
}
