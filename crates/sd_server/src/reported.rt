//! Lists of reports.
ghost use Rattle.std.specs.Prelude.{◌≡◌, IfOk, IfErr};
ghost use Rattle.sd_server.specs.Says.{AreAnswers, IsAnswerTo, SaysNot, SaysReports};
ghost use Rattle.sd_server.specs.Spans.{Moves, between, now_of};

use crate::handler::Handler;
use crate::seen::Seen;
use allocation_core::{Answer, Event};
use fleet_events::Round;
use kept_journal::JournalName;
use lists::{List, Plain};
use sd_routes::{RequestError, Said};
use std::alloc::AllocError;
use std::sync::Wait;
use std::sync::ledger::Ledger;
use std::time::Clock;

impl<R: Wait + Clock + Copy, L: Ledger, B: Ledger, N: JournalName> Handler<R, L, B, N> {
    /// What is told of reports that are entered one after the other. Where one is not entered those before it are; who reports all of them
    /// again is told which were.
    pub(crate) fn reported(&self, seen: &mut Seen<N>, events: &[Event]) -> Said
        ensures says { SaysReports seen.new events.now result }
        ensures moves { Moves seen.old seen.new }
    {
        match self.answered_each(seen, events) {
            Ok(answers) => match self.open_round(seen) {
                Ok(round) => Said::Answers { answers, round },
                Err(error) => {
                    drop((answers, error));
                    Said::Refused(RequestError::Memory)
                }
            },
            Err(error) => Said::Refused(error),
        }
    }

    /// The answers to events.
    fn answered_each(
        &self,
        seen: &mut Seen<N>,
        events: &[Event],
    ) -> Result<List<Answer>, RequestError>
        ensures answers { IfOk result (AreAnswers (between seen.old seen.new) events.now) }
        ensures not { IfErr result (SaysNot seen.new) }
        ensures moves { Moves seen.old seen.new }
    {
        let mut answers = List::new(self.alloc);
        seen.now();
        for event in events {
            let answer = self.answered_one(seen, event)?;
            match answers.push(answer) {
                Ok(()) => {}
                Err(_) => return Err(RequestError::Memory),
            }
        }
        Ok(answers)
    }

    /// The answer to an event.
    fn answered_one(&self, seen: &mut Seen<N>, event: &Event) -> Result<Answer, RequestError>
        ensures answer { IfOk result (IsAnswerTo (between seen.old seen.new) event.now) }
        ensures not { IfErr result (SaysNot seen.new) }
        ensures moves { Moves seen.old seen.new }
    {
        let Ok(event) = event.copy() else {
            seen.now();
            return Err(RequestError::Memory);
        };
        match self.submitted(seen, event) {
            Ok(receipt) => Ok(receipt.answer),
            Err(error) => Err(error),
        }
    }

    fn open_round(&self, seen: &mut Seen<N>) -> Result<Round, AllocError>
        ensures read { IfOk result (λ round. (now_of seen.new).state.round ≡ round) }
        ensures moves { Moves seen.old seen.new }
    {
        let mut pass = self.pass.lock(&self.rt);
        seen.latest.read(
            &self.rt,
            &self.desk,
            &mut *pass,
            |record| Ok(record.core().round()),
        )
    }
}
