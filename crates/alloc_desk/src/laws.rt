//! What an operator is promised of threads that share the allocator.
ghost use Rattle.std.specs.Prelude.{◌≡◌, ◌++◌, ℕ, List};
ghost use Rattle.fleet.specs.declared.job.JobSpec.{JobSpec};
ghost use Rattle.fleet_events.specs.declared.event.Event.{Event};
ghost use Rattle.allocation_core.specs.State.{first_state};
ghost use Rattle.allocation_core.specs.Runs.{state_of};
ghost use Rattle.allocation_core.specs.Best.{AllBest};
ghost use Rattle.allocation_core.specs.Booked.{AllBooked};
ghost use Rattle.journal_entries.specs.Legal.{events_in};

use crate::closed::Closed;
use crate::name::DeskName;
use allocation_core::{booked_by_holders, published_are_best};

/// Over the journal of every closed desk, and whatever events came before the desk was opened: each published allocation is the best
/// of its moment, or the best within caps that cost nothing, in the sense of `published_are_best`, and each booked report is one of
/// the target's holder in the allocation that it names, booked once for its target and round, in the sense of `booked_by_holders`.
pub fn closed_desks_are_best_and_booked<N: DeskName>(closed: &Closed<N>)
    ensures best { (jobs : List JobSpec) (report_rounds : ℕ) (earlier : List Event) → N.opening ≡ state_of (first_state jobs report_rounds) earlier
        → AllBest (first_state jobs report_rounds) (earlier ++ events_in closed.now.journal) closed.now.state }
    ensures booked { (jobs : List JobSpec) (report_rounds : ℕ) (earlier : List Event) → N.opening ≡ state_of (first_state jobs report_rounds) earlier
        → AllBooked (first_state jobs report_rounds) (earlier ++ events_in closed.now.journal) closed.now.state }
{
    published_are_best();
    booked_by_holders();
    closed.journal();
}
