//! The parts of a fleet as JSON values.
ghost use Rattle.std.specs.Prelude.{◌≡◌, Some, IfOk, OnOk};
ghost use Rattle.serde_json.specs.Data.{no_members, object};
ghost use Rattle.serde_json.specs.View.{members_view, view};
ghost use Rattle.core_history.specs.Parts.{fleet_data, fleet_parts_in, parts_of};

use crate::part::{list_value, part_member};
use fleet::{Fleet, FleetParts};
use json_values::member;
use serde_json::{Map, Value, put};
use std::alloc::{AllocError, Global};

/// The parts that the value says, if it says any.
#[tactic(auto, unfolding(crate::specs::Parts::fleet_parts_in))]
pub(crate) fn fleet_parts_in(alloc: Global, value: &Value) -> Result<Option<FleetParts>, AllocError>
    ensures { IfOk result (λ o. o ≡ fleet_parts_in (view value.now)) }
{
    let Some(collectors) = part_member(alloc, value, "collectors")? else {
        return Ok(None);
    };
    let jobs = match part_member(alloc, value, "jobs") {
        Ok(Some(jobs)) => jobs,
        Ok(None) => {
            drop(collectors);
            return Ok(None);
        }
        Err(error) => {
            drop(collectors);
            return Err(error);
        }
    };
    let last_collector = match member(alloc, value, "last_collector") {
        Ok(Some(last_collector)) => last_collector,
        Ok(None) => {
            drop((collectors, jobs));
            return Ok(None);
        }
        Err(error) => {
            drop((collectors, jobs));
            return Err(error);
        }
    };
    let listed = match part_member(alloc, value, "lists") {
        Ok(Some(listed)) => listed,
        Ok(None) => {
            drop((collectors, jobs));
            return Ok(None);
        }
        Err(error) => {
            drop((collectors, jobs));
            return Err(error);
        }
    };
    match part_member(alloc, value, "targets") {
        Ok(Some(known)) => Ok(Some(FleetParts {
            jobs,
            listed,
            known,
            collectors,
            last_collector,
        })),
        Ok(None) => {
            drop((collectors, jobs, listed));
            Ok(None)
        }
        Err(error) => {
            drop((collectors, jobs, listed));
            Err(error)
        }
    }
}

/// The value that says the parts of the fleet.
pub(crate) fn fleet_value(alloc: Global, fleet: &Fleet) -> Result<Value, AllocError>
    ensures form { IfOk result (λ v. view v ≡ fleet_data fleet.now) }
    ensures reads_back { IfOk result (λ v. fleet_parts_in (view v) ≡ Some (parts_of fleet.now)) }
{
    let mut members = Map::new(alloc);
    match put_parts(alloc, fleet, &mut members) {
        Ok(()) => Ok(Value::Object(members)),
        Err(error) => {
            drop(members);
            Err(error)
        }
    }
}

/// Puts the members of the parts of the fleet into an empty object.
#[tactic(auto, unfolding(crate::specs::Parts::fleet_parts_in))]
fn put_parts(
    alloc: Global,
    fleet: &Fleet,
    members: &mut Map<String, Value>,
) -> Result<(), AllocError>
    requires { members_view members.old.entries ≡ no_members }
    ensures form { OnOk result (object (members_view members.new.entries) ≡ fleet_data fleet.now) }
    ensures reads_back { OnOk result (fleet_parts_in (object (members_view members.new.entries)) ≡ Some (parts_of fleet.now)) }
{
    let collectors = list_value(alloc, fleet.collectors())?;
    put(members, alloc, "collectors", collectors)?;
    let jobs = list_value(alloc, fleet.jobs())?;
    put(members, alloc, "jobs", jobs)?;
    put(
        members,
        alloc,
        "last_collector",
        Value::from(fleet.last_collector()),
    )?;
    let lists = list_value(alloc, fleet.listed())?;
    put(members, alloc, "lists", lists)?;
    let targets = list_value(alloc, fleet.known())?;
    put(members, alloc, "targets", targets)
}
