//! The event that a request's body spells.
ghost use Rattle.std.specs.Prelude.{◌≡◌, codes, option_map, Ok, Some};
ghost use Rattle.serde_json.specs.Find.{get};
ghost use Rattle.serde_json.specs.View.{view};
ghost use Rattle.json_values.specs.Spelling.{member_in};
ghost use Rattle.sd_routes.specs.Events.{event_said, join_said, set_limits_said, report_said, reports_by, few_said, rules_in, limits_or_none_said, limits_said};
ghost use Rattle.sd_routes.specs.Changes.{wanted_of};
ghost use Rattle.sd_routes.specs.Epochs.{is_epoch};
ghost use Rattle.sd_routes.specs.Gives.{Gives};

use crate::ask::Ask;
use crate::change::{Change, Wanted};
use crate::join_members::is_join_object;
use crate::report_list::read_reports;
use crate::request_error::RequestError;
use crate::routing::collector_name;
use crate::which_collector::WhichCollector;
use fleet_events::{Event, read_report};
use json_values::parse;
use lists::Plain;
use reach_rules::{OwnLimits, Reach, ReachError};
use serde_json::Value;
use std::alloc::Global;

/// The event that a request asks for, if it asks for one: of a Join, of other limits and of a report, what the body spells; of a Leave, of a
/// Drain and of a Release the body is not looked at. What is to happen to a collector that is named is given with its name. A report that names an
/// epoch is one of that epoch; a body with a member `reports` has a list of them. Where several refusals hold, the first of `Shape`, `BadName`,
/// `TooManyRules`, `TooLong` and `OtherEpoch` is given.
pub fn event_of(
    alloc: Global,
    ask: &Ask,
    body: &[u8],
    epoch: u64,
) -> Result<Option<Wanted>, RequestError>
    ensures { Gives result (event_said ask.now epoch body.now) }
{
    match ask {
        Ask::Leave(collector) => of_collector(collector, Change::Leave),
        Ask::Drain(collector) => of_collector(collector, Change::Drain),
        Ask::Release(collector) => of_collector(collector, Change::Release),
        Ask::SetLimits(collector) => match parse(alloc, body)? {
            Some(value) => set_limits(alloc, collector, &value),
            None => Err(RequestError::Shape),
        },
        Ask::Join => match parse(alloc, body)? {
            Some(value) => Ok(Some(Wanted::Event(read_join(alloc, &value)?))),
            None => Err(RequestError::Shape),
        },
        Ask::Report => match parse(alloc, body)? {
            Some(value) => reports(alloc, &value, epoch),
            None => Err(RequestError::Shape),
        },
        _ => Ok(None),
    }
}

/// What is to happen to a collector.
fn of_collector(collector: &WhichCollector, change: Change) -> Result<Option<Wanted>, RequestError>
    ensures { Gives result (Ok (Some (wanted_of collector.now change))) }
{
    match collector {
        WhichCollector::Number(id) => Ok(Some(Wanted::Event(change.event(*id)))),
        WhichCollector::Name(name) => {
            let name = name.copy()?;
            Ok(Some(Wanted::OfNamed { name, change }))
        }
    }
}

fn set_limits(
    alloc: Global,
    collector: &WhichCollector,
    value: &Value,
) -> Result<Option<Wanted>, RequestError>
    ensures { Gives result (set_limits_said collector.now (view value.now)) }
{
    let limits = value.get("limits").ok_or(RequestError::Shape)?;
    let limits = read_limits(alloc, limits)?;
    of_collector(collector, Change::SetLimits(limits))
}

/// One report, or a list of them.
fn reports(alloc: Global, value: &Value, epoch: u64) -> Result<Option<Wanted>, RequestError>
    ensures { Gives result (reports_by epoch (view value.now) (get (codes "reports") (view value.now))) }
{
    if value.get("reports").is_some() {
        return Ok(Some(Wanted::Reports(read_reports(alloc, value, epoch)?)));
    }
    Ok(Some(Wanted::Event(read_reported(alloc, value, epoch)?)))
}

#[tactic(auto, unfolding(crate::specs::Events::join_said))]
fn read_join(alloc: Global, value: &Value) -> Result<Event, RequestError>
    ensures { Gives result (join_said (view value.now)) }
{
    if !is_join_object(value) {
        return Err(RequestError::Shape);
    }
    let name = value
        .get("name")
        .and_then(Value::as_str)
        .ok_or(RequestError::Shape)?;
    let reach = read_reach(alloc, value)?;
    let limits = read_limits_or_none(alloc, value)?;
    let name = collector_name(alloc, name)?;
    let reach = reach.ok_or(RequestError::TooManyRules)?;
    Ok(Event::Join {
        name,
        reach,
        limits,
    })
}

/// The rules of a collector, or none where there are too many.
#[tactic(auto, using(crate::proofs::Reaches::few_of_read, crate::proofs::Reaches::few_of_many, crate::proofs::Reaches::few_of_none))]
fn read_reach(alloc: Global, value: &Value) -> Result<Option<Reach>, RequestError>
    ensures { Gives result (few_said (member_in rules_in (codes "reach") (view value.now))) }
{
    let reach = value.get("reach").ok_or(RequestError::Shape)?;
    match Reach::read(alloc, reach) {
        Ok(reach) => Ok(Some(reach)),
        Err(ReachError::TooManyRules) => Ok(None),
        Err(ReachError::Shape) => Err(RequestError::Shape),
        Err(ReachError::Memory) => Err(RequestError::Memory),
    }
}

/// A collector's own limits: it has none where the member is left out.
fn read_limits_or_none(alloc: Global, value: &Value) -> Result<OwnLimits, RequestError>
    ensures { Gives result (limits_or_none_said (get (codes "limits") (view value.now))) }
{
    match value.get("limits") {
        Some(limits) => read_limits(alloc, limits),
        None => Ok(OwnLimits::none(alloc)),
    }
}

fn read_limits(alloc: Global, value: &Value) -> Result<OwnLimits, RequestError>
    ensures { Gives result (limits_said (view value.now)) }
{
    match OwnLimits::read(alloc, value) {
        Ok(limits) => Ok(limits),
        Err(ReachError::Memory) => Err(RequestError::Memory),
        Err(_) => Err(RequestError::Shape),
    }
}

fn read_reported(alloc: Global, value: &Value, epoch: u64) -> Result<Event, RequestError>
    ensures { Gives result (report_said epoch (view value.now)) }
{
    let Some(event) = read_report(alloc, value)? else {
        return Err(RequestError::Shape);
    };
    match is_epoch(epoch, value.get("epoch")) {
        Some(true) => Ok(event),
        Some(false) => {
            drop(event);
            Err(RequestError::OtherEpoch)
        }
        None => {
            drop(event);
            Err(RequestError::Shape)
        }
    }
}

/// Whether the epoch that is named is this one, or none is named. None where what is named is no epoch.
pub(crate) fn is_epoch(epoch: u64, found: Option<&Value>) -> Option<bool>
    ensures { result ≡ is_epoch epoch (option_map (λ v. view v.now) found.entry) }
{
    let Some(value) = found else {
        return Some(true);
    };
    match value.as_u64() {
        Some(named) => Some(named == epoch),
        None => None,
    }
}
