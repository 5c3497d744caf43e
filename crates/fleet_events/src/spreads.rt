//! Spreads out of JSON, and as JSON.
ghost use Rattle.std.specs.Prelude.{◌≡◌, Some, IfOk, OnOk, option_map};
ghost use Rattle.serde_json.specs.Data.{object, no_members};
ghost use Rattle.serde_json.specs.View.{view, members_view};
ghost use Rattle.spread_certificate.specs.Document.{spread_in};
ghost use Rattle.fleet_events.specs.Reading.{event_in, spread_event_in};
ghost use Rattle.fleet_events.specs.Writing.{spread_event_data};

use crate::event::Event;
use crate::members::put_event;
use json_values::{FromJson, put_written};
use price_certificate::Plan;
use serde_json::{Map, Value};
use spread_certificate::{Spread, spread_of};
use std::alloc::{AllocError, Global};

/// The spread that a JSON object says, if it says one.
pub(crate) fn read_spread(alloc: Global, value: &Value) -> Result<Option<Event>, AllocError>
    ensures { IfOk result (λ o. o ≡ spread_event_in (view value.now)) }
{
    match Plan::read(alloc, value)? {
        Some(plan) => read_within(alloc, plan, value),
        None => Ok(None),
    }
}

/// The spread of a plan.
fn read_within(alloc: Global, plan: Plan, value: &Value) -> Result<Option<Event>, AllocError>
    ensures { IfOk result (λ o. o ≡ option_map Event.Spread (spread_in plan (view value.now))) }
{
    match spread_of(alloc, plan, value)? {
        Some(spread) => Ok(Some(Event::Spread(spread))),
        None => Ok(None),
    }
}

/// The event of a spread as a JSON value.
pub(crate) fn spread_value(alloc: Global, spread: &Spread) -> Result<Value, AllocError>
    ensures form { IfOk result (λ v. view v ≡ spread_event_data spread.now) }
    ensures reads_back { IfOk result (λ v. event_in (view v) ≡ Some (Event.Spread spread.now)) }
{
    let mut members = Map::new(alloc);
    match put_spread(&mut members, alloc, spread) {
        Ok(()) => Ok(Value::Object(members)),
        Err(refused) => {
            drop(members);
            Err(refused)
        }
    }
}

/// The members of a spread's event.
#[tactic(auto, unfolding(crate::specs::Reading::event_in, price_certificate::specs::Plan::plan_in, spread_certificate::specs::Document::spread_in))]
fn put_spread(
    members: &mut Map<String, Value>,
    alloc: Global,
    spread: &Spread,
) -> Result<(), AllocError>
    requires { members_view members.old.entries ≡ no_members }
    ensures form { OnOk result (object (members_view members.new.entries) ≡ spread_event_data spread.now) }
    ensures reads_back { OnOk result (event_in (object (members_view members.new.entries)) ≡ Some (Event.Spread spread.now)) }
{
    put_written(members, alloc, "bin_prices", &spread.plan.bin_prices)?;
    put_written(members, alloc, "caps", &spread.caps)?;
    if let Some(even) = &spread.even {
        put_written(members, alloc, "even", even)?;
    }
    put_event(members, alloc, "spread")?;
    put_written(members, alloc, "free_bin_prices", &spread.free_bin_prices)?;
    put_written(members, alloc, "free_item_prices", &spread.free_item_prices)?;
    put_written(members, alloc, "item_prices", &spread.plan.item_prices)?;
    put_written(members, alloc, "pairs", &spread.plan.pairs)
}
