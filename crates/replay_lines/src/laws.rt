//! A replay is a run of the machine.
ghost use Rattle.std.specs.Prelude.{List, ℕ};
ghost use Rattle.replay_lines.specs.AsRuns.{IsRunOfOpened, ReplaysAreRuns};
ghost use Rattle.replay_lines.specs.Replays.{replay_of};
ghost use Rattle.replay_lines.specs.Resumes.{ResumesWhereDone};

use allocation_core::{booked_by_holders, published_are_best};

/// What a replay writes are the answers of a run of the machine: each allocation that it publishes is the best of its moment, or the
/// best within caps that cost nothing, and each report that it books is one of the target's holder, at most once for a round.
pub fn replays_are_runs()
    ensures { ReplaysAreRuns }
{
    published_are_best();
    booked_by_holders();
}

/// What a replay writes are the answers of the machine's run from the state that its first line opens, be it the first state of a
/// configuration or that of a history.
pub fn replays_are_runs_of_opened()
    ensures { (input : List ℕ) → IsRunOfOpened input (replay_of input) }
{}

/// Where a replay is done, its text leads to the state after the events that it answered.
#[tactic(auto, using(crate::proofs::Resumptions::resumes_where_done))]
pub fn resumes_where_done()
    ensures { ResumesWhereDone }
{}
