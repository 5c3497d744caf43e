//! Lists of reports: of one collector, by one list of its, in one round.
ghost use Rattle.std.specs.Prelude.{◌≡◌, IfOk, codes};
ghost use Rattle.serde_json.specs.View.{view, items_view};
ghost use Rattle.json_values.specs.Spelling.{list_in, member_in, number_in};
ghost use Rattle.sd_routes.specs.Gives.{Gives};
ghost use Rattle.sd_routes.specs.ReportLists.{entries_in, entry_in, few_said, reports_in, reports_said};

use crate::event::is_epoch;
use crate::request_error::RequestError;
use fleet_events::{AllocationNumber, CollectorId, Event, Report, Round, read_outcome};
use json_values::member;
use lists::List;
use serde_json::Value;
use std::alloc::{AllocError, Global};

/// How many reports a list has at most.
pub const MOST_REPORTS: usize = 4_096;

/// What all reports of a list share.
#[derive(Clone, Copy, Drop)]
struct Shared {
    collector: CollectorId,
    allocation: AllocationNumber,
    round: Round,
}

/// The reports of a list, each as an event, of this epoch if the list names one. Where several refusals hold, the first of `Shape`, `TooLong` and
/// `OtherEpoch` is given.
#[tactic(auto, unfolding(crate::specs::ReportLists::reports_said))]
pub(crate) fn read_reports(
    alloc: Global,
    value: &Value,
    epoch: u64,
) -> Result<List<Event>, RequestError>
    ensures { Gives result (reports_said epoch (view value.now)) }
{
    let Some(events) = reports_in(alloc, value)? else {
        return Err(RequestError::Shape);
    };
    let Some(is_current) = is_epoch(epoch, value.get("epoch")) else {
        return Err(RequestError::Shape);
    };
    if events.len() > MOST_REPORTS {
        return Err(RequestError::TooLong);
    }
    if !is_current {
        return Err(RequestError::OtherEpoch);
    }
    Ok(events)
}

#[tactic(auto, unfolding(crate::specs::ReportLists::reports_in))]
fn reports_in(alloc: Global, value: &Value) -> Result<Option<List<Event>>, AllocError>
    ensures { IfOk result (λ o. o ≡ reports_in (view value.now)) }
{
    let Some(collector) = member(alloc, value, "collector")? else {
        return Ok(None);
    };
    let Some(allocation) = member(alloc, value, "number")? else {
        return Ok(None);
    };
    let Some(round) = member(alloc, value, "round")? else {
        return Ok(None);
    };
    let shared = Shared {
        collector,
        allocation,
        round,
    };
    match value.get("reports").and_then(Value::as_array) {
        Some(entries) => each_entry(alloc, shared, entries.as_slice()),
        None => Ok(None),
    }
}

fn each_entry(
    alloc: Global,
    shared: Shared,
    entries: &[Value],
) -> Result<Option<List<Event>>, AllocError>
    ensures { IfOk result (λ o. o ≡ entries_in shared.collector shared.allocation shared.round (items_view entries.now)) }
{
    let mut events = List::new(alloc);
    for entry in entries {
        let Some(event) = entry_in(alloc, shared, entry)? else {
            return Ok(None);
        };
        events.push(event)?;
    }
    Ok(Some(events))
}

fn entry_in(alloc: Global, shared: Shared, entry: &Value) -> Result<Option<Event>, AllocError>
    ensures { IfOk result (λ o. o ≡ entry_in shared.collector shared.allocation shared.round (view entry.now)) }
{
    let Some(target) = member(alloc, entry, "target")? else {
        return Ok(None);
    };
    let Some(outcome) = read_outcome(alloc, entry)? else {
        return Ok(None);
    };
    Ok(Some(Event::Report(Report {
        collector: shared.collector,
        allocation: shared.allocation,
        target,
        round: shared.round,
        outcome,
    })))
}
