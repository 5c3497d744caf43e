//! A new list of jobs, under which what is needed goes on.
ghost use Rattle.std.specs.Prelude.{◌≡◌, ◌+◌, ◌<◌, ◌≤◌, ℕ, All, [], length, None, IfErr, IfOk, OnOk};
ghost use Rattle.handover.specs.Handover.{carried_over};
ghost use Rattle.fleet.specs.IsFleet.{IsFleet};
ghost use Rattle.fleet_renewal.specs.Renewed.{carried, fleet_refusal, renewed_fleet, renewed_slots};
ghost use Rattle.allocation_core.specs.State.{current_pairs};
ghost use Rattle.allocation_core.specs.Renewed.{IsWhyNot, renewal_refusal, renewed, rounds_left};

use super::Core;
use crate::limits::LAST_ROUND;
use crate::renewal::{Forgotten, NotRenewed, RenewalError, Renewed};
use crate::report_rounds::ReportRounds;
use fleet::{Fleet, JobSpec};
use fleet_renewal::{RenewError, fleet_refusal, renew_fleet};
use handover::Holders;
use scrape_books::Books;
use served_lists::ServedLists;
use std::alloc::AllocError;

impl Core {
    /// The allocator under a new list of jobs. What nobody needs is forgotten: targets of jobs that went, targets that are
    /// neither live nor held nor in a list that was served last, older allocations, who took which, and booked reports. The rest goes on, the targets numbered anew
    /// from 0 in their old order. Rounds before the next one are closed. Where it is refused the core comes back as it was.
    #[tactic(auto, unfolding(crate::specs::Renewed::renewed))]
    pub fn renew(
        self,
        jobs: Vec<JobSpec>,
        report_rounds: ReportRounds,
    ) -> Result<Renewed, NotRenewed>
        ensures renewed { IfOk result (λ r. r.core ≡ renewed self jobs.items report_rounds) }
        ensures granted { OnOk result (renewal_refusal self jobs.items ≡ None) }
        ensures back { IfErr result (λ n. n.core ≡ self) }
        ensures refused { IfErr result (λ n. IsWhyNot (renewal_refusal self jobs.items) n.why) }
    {
        if let Some(why) = self.renewal_refusal(jobs.as_slice()) {
            drop(jobs);
            return Err(NotRenewed { core: self, why });
        }
        match self.carried(jobs) {
            Ok((fleet, holders, served)) => Ok(self.with_fleet(
                fleet,
                holders,
                served,
                report_rounds,
            )),
            Err(_) => Err(NotRenewed {
                core: self,
                why: RenewalError::Memory,
            }),
        }
    }

    /// The first reason against a renewal. It takes no memory.
    fn renewal_refusal(&self, jobs: &[JobSpec]) -> Option<RenewalError>
        ensures { result ≡ renewal_refusal self.now jobs.now }
    {
        match fleet_refusal(&self.fleet, jobs) {
            Some(RenewError::BadJobs) => Some(RenewalError::BadJobs),
            Some(RenewError::TooManyBins) => Some(RenewalError::TooManyBins),
            Some(RenewError::Memory) => Some(RenewalError::Memory),
            None => self.rounds_spent(),
        }
    }

    fn rounds_spent(&self) -> Option<RenewalError>
        ensures { result ≡ rounds_left self.now None }
    {
        if self.round >= LAST_ROUND {
            return Some(RenewalError::RoundsSpent);
        }
        None
    }

    /// The fleet that goes on, the allocation that is carried over, and the lists that still have their targets.
    fn carried(&self, jobs: Vec<JobSpec>) -> Result<(Fleet, Holders, ServedLists), AllocError>
        ensures fleet { IfOk result (λ r. r.0 ≡ renewed_fleet self.now.fleet (current_pairs self.now) self.now.served.slots jobs.items) }
        ensures holders { IfOk result (λ r. r.1 ≡ carried_over (carried self.now.fleet (current_pairs self.now) self.now.served.slots jobs.items)) }
        ensures served { IfOk result (λ r. r.2 ≡ record { slots = renewed_slots self.now.fleet (current_pairs self.now) self.now.served.slots jobs.items; numbers = [] }) }
        ensures fit { IfOk result (λ r. length r.2.slots ≡ length r.0.known) }
        ensures given { IfOk result (λ r. All (λ (collector : ℕ). collector ≤ r.0.last_collector) r.2.slots) }
        ensures kept { IfOk result (λ r. IsFleet r.0) }
        ensures granted { OnOk result (fleet_refusal self.now.fleet jobs.items ≡ None) }
    {
        let pairs = self.holders.current_pairs();
        match renew_fleet(self.alloc, &self.fleet, jobs, pairs, self.served.slots()) {
            Ok(renewed) => match Holders::carried_over(self.alloc, renewed.pairs) {
                Ok(holders) => {
                    let served = ServedLists::carried_over(self.alloc, renewed.slots.into_vec());
                    Ok((renewed.fleet, holders, served))
                }
                Err(error) => {
                    drop((renewed.fleet, renewed.slots));
                    Err(error)
                }
            },
            Err(_) => Err(AllocError),
        }
    }

    /// The core with these in place of its own, which are given back, in the next round, with nothing booked.
    fn with_fleet(
        self,
        fleet: Fleet,
        holders: Holders,
        served: ServedLists,
        report_rounds: ReportRounds,
    ) -> Renewed
        requires kept { IsFleet fleet }
        requires few_slots { length served.slots ≤ length fleet.known }
        requires given_slots { All (λ (collector : ℕ). collector ≤ fleet.last_collector) served.slots }
        requires few { length holders.published ≤ 1 }
        requires left { self.round < LAST_ROUND }
        ensures { result.core ≡ record self { fleet = fleet; published = holders.published; taken = holders.taken; served = served; round = self.round + 1; booked = []; begun = self.round + 1; report_rounds = report_rounds } }
    {
        let core = Core {
            alloc: self.alloc,
            fleet,
            holders,
            instance: self.instance,
            plan: self.plan,
            served,
            round: self.round + 1,
            books: Books::open(self.alloc),
            begun: self.round + 1,
            report_rounds,
        };
        let forgotten = Forgotten {
            fleet: self.fleet,
            holders: self.holders,
            served: self.served,
            books: self.books,
        };
        Renewed { core, forgotten }
    }
}
