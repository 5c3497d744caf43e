//! The journal's copy of an answer, which takes no memory after the event: what it needs was made before.
ghost use Rattle.std.specs.Prelude.{◌≡◌, [], IfOk, None, Some};
ghost use Rattle.allocation_core.specs.State.{held_by, left_out_at, list_at};
ghost use Rattle.allocation_core.specs.Steps.{place_of};
ghost use Rattle.alloc_desk.specs.Spare.{lists_of, IsSpareOf, IsSpareFor};

use allocation_core::{Answer, CollectorId, Core, Event, ServedList};
use lists::List;
use std::alloc::{AllocError, Global};

/// The lists that a copy of the event's answer will have, where it may have some.
pub(crate) fn spare_of(
    alloc: Global,
    core: &Core,
    event: &Event,
) -> Result<Option<ServedList>, AllocError>
    ensures { IfOk result (IsSpareOf core.now event.now) }
{
    match event {
        Event::Take(collector) => held_spare(alloc, core, *collector),
        Event::Serve { collector, job } => list_spare(core, *collector, job.as_str()),
        _ => Ok(None),
    }
}

/// What a collector holds, which is taken whole.
fn held_spare(
    alloc: Global,
    core: &Core,
    collector: CollectorId,
) -> Result<Option<ServedList>, AllocError>
    ensures { IfOk result (λ o. o ≡ Some (lists_of (held_by core.now collector) [])) }
{
    match core.held(collector) {
        Ok(listed) => Ok(Some(ServedList {
            listed,
            left_out: List::new(alloc),
        })),
        Err(error) => Err(error),
    }
}

/// A collector's list of a job.
fn list_spare(
    core: &Core,
    collector: CollectorId,
    job: &str,
) -> Result<Option<ServedList>, AllocError>
    ensures { IfOk result (λ o. o ≡ Some (lists_of (list_at core.now collector (place_of core.now job.now)) (left_out_at core.now collector (place_of core.now job.now)))) }
{
    match core.list(collector, job) {
        Ok(list) => Ok(Some(list)),
        Err(error) => Err(error),
    }
}

/// A copy of an answer, with the spare lists for its own.
pub(crate) fn copy_with(answer: &Answer, spare: Option<ServedList>) -> Answer
    requires { IsSpareFor answer.now spare }
    ensures { result ≡ answer.now }
{
    match spare {
        Some(lists) => copy_with_lists(answer, lists),
        None => plain_copy(answer),
    }
}

fn copy_with_lists(answer: &Answer, lists: ServedList) -> Answer
    requires { IsSpareFor answer.now (Some lists) }
    ensures { result ≡ answer.now }
{
    match answer {
        Answer::Taken {
            allocation,
            round,
            held: _,
        } => Answer::Taken {
            allocation: *allocation,
            round: *round,
            held: lists.listed,
        },
        Answer::Served {
            allocation,
            round,
            listed: _,
            left_out: _,
        } => Answer::Served {
            allocation: *allocation,
            round: *round,
            listed: lists.listed,
            left_out: lists.left_out,
        },
        _ => plain_copy(answer),
    }
}

/// A copy of an answer without lists.
fn plain_copy(answer: &Answer) -> Answer
    requires { IsSpareFor answer.now None }
    ensures { result ≡ answer.now }
{
    match answer {
        Answer::Discovered { added, removed } => Answer::Discovered {
            added: *added,
            removed: *removed,
        },
        Answer::Joined(collector) => Answer::Joined(*collector),
        Answer::Left => Answer::Left,
        Answer::Draining => Answer::Draining,
        Answer::LimitsSet => Answer::LimitsSet,
        Answer::Published(allocation) => Answer::Published(*allocation),
        Answer::RoundOpen(round) => Answer::RoundOpen(*round),
        Answer::Taken { .. } | Answer::Served { .. } => unreachable!(),
        Answer::Released(count) => Answer::Released(*count),
        Answer::Booked => Answer::Booked,
        Answer::Not(refusal) => Answer::Not(*refusal),
    }
}
