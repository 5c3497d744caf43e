//! Events out of JSON.
ghost use Rattle.std.specs.Prelude.{◌≡◌, Some, IfOk, option_map, codes, true, false};
ghost use Rattle.serde_json.specs.Find.{as_str, get};
ghost use Rattle.serde_json.specs.View.{view};
ghost use Rattle.json_values.specs.Spelling.{member_in};
ghost use Rattle.fleet_events.specs.Reading.{targets_in, discover_in, join_in, leave_in, install_in, take_in, serve_in, job_or_none, release_in, report_in, drain_in, limits_or_none, set_limits_in, outcome_in, outcome_by, event_named, event_in, event_of};

use crate::event::Event;
use crate::report::Report;
use crate::spreads::read_spread;
use crate::target::read_targets;
use json_values::{FromJson, member, number, parse};
use label_sets::Target;
use lists::{List, Text};
use price_certificate::Plan;
use reach_rules::OwnLimits;
use scrape_books::Outcome;
use serde_json::Value;
use std::alloc::{AllocError, Global};

/// The event that a JSON text says, if it says one.
pub fn read_event(alloc: Global, text: &[u8]) -> Result<Option<Event>, AllocError>
    ensures { IfOk result (λ o. o ≡ event_of text.now) }
{
    match parse(alloc, text)? {
        Some(value) => read_value(alloc, &value),
        None => Ok(None),
    }
}

#[tactic(auto, unfolding(crate::specs::Reading::event_in))]
fn read_value(alloc: Global, value: &Value) -> Result<Option<Event>, AllocError>
    ensures { IfOk result (λ o. o ≡ event_in (view value.now)) }
{
    match value.get("event").and_then(Value::as_str) {
        Some(name) => read_named(alloc, name, value),
        None => Ok(None),
    }
}

fn read_named(alloc: Global, name: &str, value: &Value) -> Result<Option<Event>, AllocError>
    ensures { IfOk result (λ o. o ≡ event_named name.now (view value.now)) }
{
    match name {
        "discover" => read_discover(alloc, value),
        "join" => read_join(alloc, value),
        "leave" => read_leave(alloc, value),
        "drain" => read_drain(alloc, value),
        "limits" => read_set_limits(alloc, value),
        "install" => read_install(alloc, value),
        "round" => Ok(Some(Event::NextRound)),
        "take" => read_take(alloc, value),
        "serve" => read_serve(alloc, value),
        "release" => read_release(alloc, value),
        "report" => read_report(alloc, value),
        "spread" => read_spread(alloc, value),
        _ => Ok(None),
    }
}

#[tactic(auto, unfolding(crate::specs::Reading::discover_in))]
fn read_discover(alloc: Global, value: &Value) -> Result<Option<Event>, AllocError>
    ensures { IfOk result (λ o. o ≡ discover_in (view value.now)) }
{
    let Some(job) = member(alloc, value, "job")? else {
        return Ok(None);
    };
    let Some(source) = member(alloc, value, "source")? else {
        return Ok(None);
    };
    let Some(targets) = read_listed(alloc, value)? else {
        return Ok(None);
    };
    Ok(Some(Event::Discover {
        job,
        source,
        targets,
    }))
}

/// The targets that a discovery lists.
fn read_listed(alloc: Global, value: &Value) -> Result<Option<List<Target>>, AllocError>
    ensures { IfOk result (λ o. o ≡ member_in targets_in (codes "targets") (view value.now)) }
{
    match value.get("targets") {
        Some(targets) => read_targets(alloc, targets),
        None => Ok(None),
    }
}

#[tactic(auto, unfolding(crate::specs::Reading::join_in))]
fn read_join(alloc: Global, value: &Value) -> Result<Option<Event>, AllocError>
    ensures { IfOk result (λ o. o ≡ join_in (view value.now)) }
{
    let Some(name) = member(alloc, value, "name")? else {
        return Ok(None);
    };
    let Some(reach) = member(alloc, value, "reach")? else {
        return Ok(None);
    };
    let Some(limits) = read_limits_or_none(alloc, value)? else {
        return Ok(None);
    };
    Ok(Some(Event::Join {
        name,
        reach,
        limits,
    }))
}

/// A collector's own limits: it has none where the member is left out.
fn read_limits_or_none(alloc: Global, value: &Value) -> Result<Option<OwnLimits>, AllocError>
    ensures { IfOk result (λ o. o ≡ limits_or_none (get (codes "limits") (view value.now))) }
{
    match value.get("limits") {
        Some(limits) => FromJson::read(alloc, limits),
        None => Ok(Some(OwnLimits::none(alloc))),
    }
}

fn read_leave(alloc: Global, value: &Value) -> Result<Option<Event>, AllocError>
    ensures { IfOk result (λ o. o ≡ leave_in (view value.now)) }
{
    match member(alloc, value, "collector")? {
        Some(collector) => Ok(Some(Event::Leave(collector))),
        None => Ok(None),
    }
}

fn read_drain(alloc: Global, value: &Value) -> Result<Option<Event>, AllocError>
    ensures { IfOk result (λ o. o ≡ drain_in (view value.now)) }
{
    match member(alloc, value, "collector")? {
        Some(collector) => Ok(Some(Event::Drain(collector))),
        None => Ok(None),
    }
}

#[tactic(auto, unfolding(crate::specs::Reading::set_limits_in))]
fn read_set_limits(alloc: Global, value: &Value) -> Result<Option<Event>, AllocError>
    ensures { IfOk result (λ o. o ≡ set_limits_in (view value.now)) }
{
    let Some(collector) = member(alloc, value, "collector")? else {
        return Ok(None);
    };
    let Some(limits) = member(alloc, value, "limits")? else {
        return Ok(None);
    };
    Ok(Some(Event::SetLimits { collector, limits }))
}

fn read_install(alloc: Global, value: &Value) -> Result<Option<Event>, AllocError>
    ensures { IfOk result (λ o. o ≡ install_in (view value.now)) }
{
    match Plan::read(alloc, value)? {
        Some(plan) => Ok(Some(Event::Install(plan))),
        None => Ok(None),
    }
}

fn read_take(alloc: Global, value: &Value) -> Result<Option<Event>, AllocError>
    ensures { IfOk result (λ o. o ≡ take_in (view value.now)) }
{
    match member(alloc, value, "collector")? {
        Some(collector) => Ok(Some(Event::Take(collector))),
        None => Ok(None),
    }
}

#[tactic(auto, unfolding(crate::specs::Reading::serve_in))]
fn read_serve(alloc: Global, value: &Value) -> Result<Option<Event>, AllocError>
    ensures { IfOk result (λ o. o ≡ serve_in (view value.now)) }
{
    let Some(collector) = member(alloc, value, "collector")? else {
        return Ok(None);
    };
    let Some(job) = member(alloc, value, "job")? else {
        return Ok(None);
    };
    Ok(Some(Event::Serve { collector, job }))
}

#[tactic(auto, unfolding(crate::specs::Reading::release_in))]
fn read_release(alloc: Global, value: &Value) -> Result<Option<Event>, AllocError>
    ensures { IfOk result (λ o. o ≡ release_in (view value.now)) }
{
    let Some(collector) = member(alloc, value, "collector")? else {
        return Ok(None);
    };
    let Some(job) = read_job_or_none(alloc, value)? else {
        return Ok(None);
    };
    Ok(Some(Event::Release { collector, job }))
}

/// The job whose list is let go: none is named where the member is left out.
fn read_job_or_none(alloc: Global, value: &Value) -> Result<Option<Option<Text>>, AllocError>
    ensures { IfOk result (λ o. o ≡ job_or_none (get (codes "job") (view value.now))) }
{
    match value.get("job") {
        Some(job) => read_job(alloc, job),
        None => Ok(Some(None)),
    }
}

fn read_job(alloc: Global, job: &Value) -> Result<Option<Option<Text>>, AllocError>
    ensures { IfOk result (λ o. o ≡ option_map Some (as_str (view job.now))) }
{
    match Text::read(alloc, job)? {
        Some(job) => Ok(Some(Some(job))),
        None => Ok(None),
    }
}

/// The report that a JSON object says, if it says one: the members of a report's event. What its member `event` says is not looked at.
#[tactic(auto, unfolding(crate::specs::Reading::report_in))]
pub fn read_report(alloc: Global, value: &Value) -> Result<Option<Event>, AllocError>
    ensures { IfOk result (λ o. o ≡ report_in (view value.now)) }
{
    let Some(collector) = member(alloc, value, "collector")? else {
        return Ok(None);
    };
    let Some(allocation) = member(alloc, value, "number")? else {
        return Ok(None);
    };
    let Some(target) = member(alloc, value, "target")? else {
        return Ok(None);
    };
    let Some(round) = member(alloc, value, "round")? else {
        return Ok(None);
    };
    let Some(outcome) = read_outcome(alloc, value)? else {
        return Ok(None);
    };
    Ok(Some(Event::Report(Report {
        collector,
        allocation,
        target,
        round,
        outcome,
    })))
}

/// What a scrape came to, by the members `up` and `samples` of an object: how many samples, or that the target did not answer.
#[tactic(auto, unfolding(crate::specs::Reading::outcome_in))]
pub fn read_outcome(alloc: Global, value: &Value) -> Result<Option<Outcome>, AllocError>
    ensures { IfOk result (λ o. o ≡ outcome_in (view value.now)) }
{
    match value.get("up").and_then(Value::as_bool) {
        Some(true) => read_up(alloc, value),
        Some(false) => Ok(read_down(value)),
        None => Ok(None),
    }
}

fn read_up(alloc: Global, value: &Value) -> Result<Option<Outcome>, AllocError>
    ensures { IfOk result (λ o. o ≡ outcome_by true (view value.now)) }
{
    match member(alloc, value, "samples")? {
        Some(samples) => Ok(Some(Outcome::Up(samples))),
        None => Ok(None),
    }
}

/// A scrape that failed has no samples.
fn read_down(value: &Value) -> Option<Outcome>
    ensures { result ≡ outcome_by false (view value.now) }
{
    match value.get("samples") {
        None => Some(Outcome::Down),
        Some(samples) if number(samples) == Some(0) => Some(Outcome::Down),
        Some(_) => None,
    }
}
