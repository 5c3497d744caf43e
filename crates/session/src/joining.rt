//! The collectors of a session, by what they join with.
ghost use Rattle.std.specs.Prelude.{◌≡◌, IfOk, codes};
ghost use Rattle.serde_json.specs.Find.{get};
ghost use Rattle.serde_json.specs.View.{view, items_view};
ghost use Rattle.json_values.specs.Spelling.{all_in, list_in, member_in};
ghost use Rattle.fleet_events.specs.Reading.{join_in as join_said, limits_or_none as limits_or_none_in};

use fleet_events::Event;
use json_values::{FromJson, member};
use lists::List;
use reach_rules::OwnLimits;
use serde_json::Value;
use std::alloc::{AllocError, Global};

/// Each collector's Join: it has the members of the event `join`.
pub(crate) fn joins_in(alloc: Global, document: &Value) -> Result<Option<List<Event>>, AllocError>
    ensures { IfOk result (λ o. o ≡ member_in (list_in join_said) (codes "collectors") (view document.now)) }
{
    match document.get("collectors").and_then(Value::as_array) {
        Some(collectors) => each_join(alloc, collectors.as_slice()),
        None => Ok(None),
    }
}

fn each_join(alloc: Global, collectors: &[Value]) -> Result<Option<List<Event>>, AllocError>
    ensures { IfOk result (λ o. o ≡ all_in join_said (items_view collectors.now)) }
{
    let mut joins = List::new(alloc);
    for collector in collectors {
        let Some(join) = join_in(alloc, collector)? else {
            return Ok(None);
        };
        joins.push(join)?;
    }
    Ok(Some(joins))
}

#[tactic(auto, unfolding(fleet_events::specs::Reading::join_in))]
fn join_in(alloc: Global, collector: &Value) -> Result<Option<Event>, AllocError>
    ensures { IfOk result (λ o. o ≡ join_said (view collector.now)) }
{
    let Some(name) = member(alloc, collector, "name")? else {
        return Ok(None);
    };
    let Some(reach) = member(alloc, collector, "reach")? else {
        return Ok(None);
    };
    let Some(limits) = limits_or_none(alloc, collector)? else {
        return Ok(None);
    };
    Ok(Some(Event::Join {
        name,
        reach,
        limits,
    }))
}

/// A collector's own limits: it has none where the member is left out.
fn limits_or_none(alloc: Global, collector: &Value) -> Result<Option<OwnLimits>, AllocError>
    ensures { IfOk result (λ o. o ≡ limits_or_none_in (get (codes "limits") (view collector.now))) }
{
    match collector.get("limits") {
        Some(limits) => FromJson::read(alloc, limits),
        None => Ok(Some(OwnLimits::none(alloc))),
    }
}
