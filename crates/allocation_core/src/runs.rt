//! Runs of the machine over a list of events.
ghost use Rattle.std.specs.Prelude.{◌≡◌, ◌++◌, ℕ, List, IfOk, IfErr, OnOk};
ghost use Rattle.fleet.specs.declared.job.JobSpec.{JobSpec};
ghost use Rattle.allocation_core.specs.State.{first_state};
ghost use Rattle.allocation_core.specs.Best.{AllBest};
ghost use Rattle.allocation_core.specs.Booked.{AllBooked};
ghost use Rattle.allocation_core.specs.Runs.{answers_of, state_of, StopsAt};
ghost use Rattle.fleet_events.specs.declared.event.Event.{Event};

use crate::laws::{booked_by_holders, published_are_best};
use crate::machine::Core;
use fleet_events::{Answer, Event};

/// A run that stopped for want of memory. The core is as after the events that were answered.
#[derive(Drop)]
pub struct Stopped {
    pub answers: Vec<Answer>,
}

/// Applies events in order, and stops at the first want of memory, with that event and those behind it left. Whatever events
/// the core had before, each of its allocations is then the best of its moment, in the sense of `published_are_best`, and each
/// booked report is one of the target's holder, in the sense of `booked_by_holders`.
pub fn run(core: &mut Core, events: Vec<Event>) -> Result<Vec<Answer>, Stopped>
    ensures answers { IfOk result (λ v. v.items ≡ answers_of core.old events.items) }
    ensures state { OnOk result (core.new ≡ state_of core.old events.items) }
    ensures best { (jobs : List JobSpec) (report_rounds : ℕ) (earlier : List Event) → core.old ≡ state_of (first_state jobs report_rounds) earlier → AllBest (first_state jobs report_rounds) (earlier ++ events.items) core.new }
    ensures booked { (jobs : List JobSpec) (report_rounds : ℕ) (earlier : List Event) → core.old ≡ state_of (first_state jobs report_rounds) earlier → AllBooked (first_state jobs report_rounds) (earlier ++ events.items) core.new }
    ensures stopped { IfErr result (λ s. StopsAt core.old events.items s.answers.items core.new) }
{
    published_are_best();
    booked_by_holders();
    let mut answers = Vec::new(*events.allocator());
    if answers.reserve(events.len()).is_err() {
        return Err(Stopped { answers });
    }
    for event in events {
        match core.apply(event) {
            Ok(answer) => answers.push_reserved(answer),
            Err(_) => return Err(Stopped { answers }),
        }
    }
    Ok(answers)
}
