//! A core from what a renewal keeps, and readers of that.
ghost use Rattle.std.specs.Prelude.{◌≡◌, ◌<◌, ◌≤◌, ℕ, All, AllPairs, IfOk, length};
ghost use Rattle.allocation_core.specs.State.{current_pairs, restored};

use super::Core;
use crate::report_rounds::ReportRounds;
use fleet::Fleet;
use fleet_events::{CollectorId, TargetId};
use handover::Holders;
use lists::List;
use price_certificate::{Instance, Plan};
use scrape_books::Books;
use served_lists::ServedLists;
use std::alloc::{AllocError, Global};

impl Core {
    /// The allocator as a renewal leaves it: these pairs are its only allocation, in order of target, and the slots say whose list has
    /// which known target, 0 where none has it. Nobody has taken anything, nothing is booked, and
    /// earlier rounds are closed.
    pub fn restored(
        alloc: Global,
        fleet: Fleet,
        pairs: List<(TargetId, CollectorId)>,
        slots: Vec<CollectorId>,
        round: u32,
        instance: Instance,
        plan: Plan,
        report_rounds: ReportRounds,
    ) -> Result<Core, AllocError>
        requires ascending { AllPairs (λ (a b : ℕ × ℕ). a.0 < b.0) pairs }
        requires opened { 1 ≤ round }
        requires few { length slots.items ≤ length fleet.known }
        requires given { All (λ (collector : ℕ). collector ≤ fleet.last_collector) slots.items }
        ensures { IfOk result (λ c. c ≡ restored fleet pairs slots.items instance plan round report_rounds) }
    {
        let _jobs = fleet.jobs();
        let holders = match Holders::carried_over(alloc, pairs) {
            Ok(holders) => holders,
            Err(error) => {
                drop((fleet, slots, instance, plan));
                return Err(error);
            }
        };
        Ok(Core {
            alloc,
            fleet,
            holders,
            instance,
            plan,
            served: ServedLists::carried_over(alloc, slots),
            round,
            books: Books::open(alloc),
            begun: round,
            report_rounds,
        })
    }

    /// Who and what there is.
    pub fn fleet(&self) -> &Fleet
        ensures { result.now ≡ self.now.fleet }
    {
        &self.fleet
    }

    /// The current allocation, in order of target.
    pub fn allocation(&self) -> &[(TargetId, CollectorId)]
        ensures pairs { result.now ≡ current_pairs self.now }
        ensures ascending { AllPairs (λ (a b : ℕ × ℕ). a.0 < b.0) result.now }
    {
        self.holders.current_pairs()
    }

    /// Whose list has a known target, by the target's number, 0 where none has it; past the end none has.
    pub fn slots(&self) -> &[CollectorId]
        ensures slots { result.now ≡ self.now.served.slots }
        ensures few { length result.now ≤ length self.now.fleet.known }
        ensures given { All (λ (collector : ℕ). collector ≤ self.now.fleet.last_collector) result.now }
    {
        self.served.slots()
    }
}
