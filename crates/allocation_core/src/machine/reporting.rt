//! Reports of scrapes, each booked where nothing is against it.
ghost use Rattle.std.specs.Prelude.{◌≡◌, None, IfOk, OnOk, OnErr};
ghost use Rattle.allocation_core.specs.Steps.{answer_of, number_for, refusal_of, state_after, report_refusal, round_refusal, slot_refusal};

use super::Core;
use fleet_events::{
    AllocationNumber, Answer, CollectorId, Event, Refusal, Report, Round, TargetId,
};
use scrape_books::Entry;
use std::alloc::AllocError;

impl Core {
    /// A collector's report of a target is booked. Memory is wanted only after all checks.
    #[tactic(auto, unfolding(crate::specs::Steps::answer_of, crate::specs::Steps::state_after))]
    pub(super) fn report(&mut self, report: Report) -> Result<Answer, AllocError>
        ensures answer { IfOk result (λ a. a ≡ answer_of self.old (Event.Report report)) }
        ensures state { OnOk result (self.new ≡ state_after self.old (Event.Report report)) }
        ensures err { OnErr result (self.new ≡ self.old) }
        ensures late { OnErr result (refusal_of self.old (Event.Report report) ≡ None) }
    {
        if !self.fleet.is_joined(report.collector) {
            return Ok(Answer::Not(Refusal::UnknownCollector));
        }
        if let Some(refusal) = self.report_refusal(report) {
            return Ok(Answer::Not(refusal));
        }
        let entry = Entry {
            round: report.round,
            number: report.allocation,
            collector: report.collector,
            outcome: report.outcome,
        };
        match self.books.book(report.target, entry) {
            Ok(()) => Ok(Answer::Booked),
            Err(_) => Err(AllocError),
        }
    }

    /// The first reason against a report of a live collector.
    fn report_refusal(&self, report: Report) -> Option<Refusal>
        ensures { result ≡ report_refusal self.now report.collector report.allocation report.target report.round }
    {
        let number = self.number_for(report.collector, report.target);
        if number != report.allocation {
            return Some(Refusal::NotTaken(number));
        }
        if report.target as usize >= self.fleet.known().len() {
            return Some(Refusal::UnknownTarget);
        }
        let holder = self.holders.holder(report.allocation, report.target);
        if holder != Some(report.collector) {
            return Some(Refusal::NotHolder(holder));
        }
        self.slot_refusal(report.collector, report.target, report.round)
    }

    /// The number that a collector's report of a target names.
    fn number_for(&self, collector: CollectorId, target: TargetId) -> AllocationNumber
        ensures { result ≡ number_for self.now collector target }
    {
        let taken = self.holders.taken(collector);
        match self.fleet.known().get(target as usize) {
            Some(known) => self.served.number(collector, known.job).unwrap_or(taken),
            None => taken,
        }
    }

    /// Another collector's list has the target, or its round is against the report.
    fn slot_refusal(
        &self,
        collector: CollectorId,
        target: TargetId,
        round: Round,
    ) -> Option<Refusal>
        ensures { result ≡ slot_refusal self.now collector target round }
    {
        let other = self.served.slot(target);
        if other != 0 && other != collector {
            return Some(Refusal::StillServed(other));
        }
        self.round_refusal(target, round)
    }

    /// The round is before the first one of which a report is booked, or behind the open one, or the target's report of it is booked.
    fn round_refusal(&self, target: TargetId, round: Round) -> Option<Refusal>
        ensures { result ≡ round_refusal self.now target round }
    {
        let first = self.first_round();
        if round < first {
            return Some(Refusal::RoundClosed(first));
        }
        if round > self.round {
            return Some(Refusal::RoundNotOpen(self.round));
        }
        if self.books.is_booked(target, round) {
            return Some(Refusal::AlreadyBooked);
        }
        None
    }
}
