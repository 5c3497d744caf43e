//! The event machine: one step for each event, and readers of the state.
ghost use Rattle.std.specs.Prelude.{◌≡◌, ◌↔◌, ◌+◌, ◌<◌, Some, None, Ok, Err, true, false, slice_get, MatchOption, IfOk, IsOk, OnOk, OnErr, length};
ghost use Rattle.scrape_books.specs.Books.{total_of};
ghost use Rattle.allocation_core.specs.State.{current_of, first_round, first_state, held_by, with_rounds};
ghost use Rattle.handover.specs.Handover.{held_since, holder_in, taken_by};
ghost use Rattle.fleet.specs.Fleet.{id_named};
ghost use Rattle.fleet.specs.Jobs.{are_jobs};
ghost use Rattle.allocation_core.specs.Steps.{answer_of, refusal_of, state_after, gained};
ghost use Rattle.allocation_core.specs.Answers.{checks_first, needs_no_memory};
ghost use Rattle.allocation_core.specs.Installed.{IsAnswerToCertified};
ghost use Rattle.allocation_core.specs.Kept.{IsKept};

mod again;
mod discovering;
mod installing;
mod joining;
mod renewing;
mod reporting;
mod restoring;
mod serving;
mod taking;

use crate::certificate::{empty_instance, empty_plan};
use crate::report_rounds::ReportRounds;
use fleet::{Collector, Fleet, JobSpec, OpenError};
use fleet_events::{Answer, CollectorId, Event, TargetId};
use handover::Holders;
use label_sets::Target;
use lists::{List, Plain};
use price_certificate::{Instance, Plan};
use scrape_books::Books;
use served_lists::ServedLists;
use std::alloc::{AllocError, Global};
use std::marker::Model;

/// The allocator. Contracts see it as its state.
#[derive(Drop)]
pub struct Core {
    alloc: Global,
    fleet: Fleet,
    holders: Holders,
    instance: Instance,
    plan: Plan,
    served: ServedLists,
    round: u32,
    books: Books,
    begun: u32,
    report_rounds: ReportRounds,
}

impl Model for Core {
    ghost use Rattle.allocation_core.specs.State.{State};
    ghost use Rattle.allocation_core.specs.Kept.{IsKept};

    ghost Value = { State };

    ghost view = { λ c. record { fleet = c.fleet; published = c.holders.published; problem = c.instance; plan = c.plan; taken = c.holders.taken; served = c.served; round = c.round; booked = c.books; begun = c.begun; report_rounds = c.report_rounds } };

    ghost invariant = { λ c. IsKept (record { fleet = c.fleet; published = c.holders.published; problem = c.instance; plan = c.plan; taken = c.holders.taken; served = c.served; round = c.round; booked = c.books; begun = c.begun; report_rounds = c.report_rounds }) };
}

impl Core {
    /// The allocator of these jobs: nothing is listed, and nobody joined. A report is booked of the open round alone.
    pub fn open(alloc: Global, jobs: Vec<JobSpec>) -> Result<Core, OpenError>
        ensures first { IfOk result (λ c. c ≡ first_state jobs.items 1) }
        ensures bad { (result ≡ Err OpenError.BadJobs) ↔ (are_jobs jobs.items ≡ false) }
    {
        let fleet = Fleet::open(alloc, jobs)?;
        let instance = match empty_instance(alloc) {
            Ok(instance) => instance,
            Err(error) => {
                drop(fleet);
                return Err(error.into());
            }
        };
        Ok(Core {
            alloc,
            fleet,
            holders: Holders::open(alloc),
            instance,
            plan: empty_plan(alloc),
            served: ServedLists::open(alloc),
            round: 1,
            books: Books::open(alloc),
            begun: 1,
            report_rounds: ReportRounds::least(),
        })
    }

    /// The same allocator, which from now on books reports of so many of the last rounds. Rounds before its own stay closed.
    pub fn with_report_rounds(self, report_rounds: ReportRounds) -> Core
        ensures { result ≡ with_rounds report_rounds self }
    {
        Core {
            alloc: self.alloc,
            fleet: self.fleet,
            holders: self.holders,
            instance: self.instance,
            plan: self.plan,
            served: self.served,
            round: self.round,
            books: self.books,
            begun: self.begun,
            report_rounds,
        }
    }

    /// One step. Without memory nothing changes, and Leave, Drain, SetLimits, NextRound and Release take none. Join, Take, Serve and
    /// Report want it only after all their checks.
    #[tactic(auto, using(crate::proofs::BookedLemmas::total_rises))]
    pub fn apply(&mut self, event: Event) -> Result<Answer, AllocError>
        ensures answer { IfOk result (λ a. a ≡ answer_of self.old event) }
        ensures state { OnOk result (self.new ≡ state_after self.old event) }
        ensures total { IfOk result (λ a. total_of self.new.booked ≡ total_of self.old.booked + gained event a) }
        ensures err { OnErr result (self.new ≡ self.old) }
        ensures memory { needs_no_memory event ≡ true → IsOk result }
        ensures certified { IfOk result (IsAnswerToCertified self.old event) }
        ensures late { checks_first event ≡ true → OnErr result (refusal_of self.old event ≡ None) }
    {
        match event {
            Event::Discover {
                job,
                source,
                targets,
            } => self.discover(job, source, targets),
            Event::Join {
                name,
                reach,
                limits,
            } => self.join(name, reach, limits),
            Event::Leave(collector) => Ok(self.leave(collector)),
            Event::Drain(collector) => Ok(self.drain(collector)),
            Event::SetLimits { collector, limits } => Ok(self.set_limits(collector, limits)),
            Event::Install(plan) => self.install(plan),
            Event::Spread(spread) => self.spread(spread),
            Event::NextRound => Ok(self.next_round()),
            Event::Take(collector) => self.take(collector),
            Event::Serve { collector, job } => self.serve(collector, job),
            Event::Release { collector, job } => Ok(self.release(collector, job)),
            Event::Report(report) => self.report(report),
        }
    }

    /// The number of the current allocation, 0 where none is published. Its contract also says what every state keeps.
    pub fn current(&self) -> u32
        ensures number { result ≡ current_of self.now }
        ensures kept { IsKept self.now }
    {
        self.holders.current()
    }

    /// The open round.
    pub fn round(&self) -> u32
        ensures { result ≡ self.now.round }
    {
        self.round
    }

    /// Of how many of the last rounds a report is booked.
    pub fn report_rounds(&self) -> ReportRounds
        ensures { result ≡ self.now.report_rounds }
    {
        self.report_rounds
    }

    /// The first round of which a report is booked.
    pub fn first_round(&self) -> u32
        ensures first { result ≡ first_round self.now }
        ensures near { self.now.round < result + 64 }
    {
        let before = self.report_rounds.count() - 1;
        self.begun.max(self.round.saturating_sub(before))
    }

    /// The samples of all reports that are booked.
    pub fn total(&self) -> u128
        ensures { result ≡ total_of self.now.booked }
    {
        self.books.total()
    }

    /// How many reports are booked.
    pub fn reports(&self) -> usize
        ensures { result ≡ length self.now.booked }
    {
        self.books.entries().len()
    }

    /// The live collectors in order of number.
    pub fn collectors(&self) -> &[Collector]
        ensures { result.now ≡ self.now.fleet.collectors }
    {
        self.fleet.collectors()
    }

    /// The number of the live collector of a name.
    pub fn named(&self, name: &str) -> Option<CollectorId>
        ensures { result ≡ id_named self.now.fleet.collectors name.now }
    {
        self.fleet.id_named(name)
    }

    /// The place of a target's job, and the target.
    pub fn target(&self, number: TargetId) -> Option<(usize, &Target)>
        ensures { MatchOption result (slice_get self.now.fleet.known number ≡ None)
            (λ r. slice_get self.now.fleet.known number ≡ Some (record { job = r.0; target = r.1.now })) }
    {
        self.fleet.target(number)
    }

    /// The targets that a collector holds in the current allocation, in order of number.
    pub fn held(&self, collector: CollectorId) -> Result<List<TargetId>, AllocError>
        ensures { IfOk result (λ l. l ≡ held_by self.now collector) }
    {
        match self.holders.held(self.holders.current(), collector) {
            Ok(held) => Ok(held),
            Err(_) => Err(AllocError),
        }
    }

    /// The number of the allocation that a collector took last, 0 where it took none.
    pub fn taken(&self, collector: CollectorId) -> u32
        ensures { result ≡ taken_by self.now.taken collector }
    {
        self.holders.taken(collector)
    }

    /// Who held a target in the allocation of a number. `None` where nobody did, or no allocation has the number.
    pub fn holder(&self, number: u32, target: TargetId) -> Option<CollectorId>
        ensures { result ≡ holder_in self.now.published number target }
    {
        self.holders.holder(number, target)
    }

    /// From which allocation on the holder of a target in the current one has held it without a break. `None` where nobody holds it. Numbers begin
    /// anew with each renewal.
    pub fn held_since(&self, target: TargetId) -> Option<u32>
        ensures { result ≡ held_since self.now.published target }
    {
        self.holders.held_since(target)
    }

    /// What was booked.
    pub fn books(&self) -> &Books
        ensures { result.now ≡ self.now.booked }
    {
        &self.books
    }

    /// The plan of the last allocation that was published, and the instance that its prices certify it for, which has the caps of a
    /// spread for limits; both empty before the first.
    pub fn certificate(&self) -> Result<(Instance, Plan), AllocError>
        ensures instance { IfOk result (λ c. c.0 ≡ self.now.problem) }
        ensures plan { IfOk result (λ c. c.1 ≡ self.now.plan) }
    {
        let instance = self.instance.copy()?;
        match self.plan.copy() {
            Ok(plan) => Ok((instance, plan)),
            Err(error) => {
                drop(instance);
                Err(error)
            }
        }
    }
}
