//! Collectors as JSON values.
ghost use Rattle.std.specs.Prelude.{◌≡◌, OnOk, Some};
ghost use Rattle.serde_json.specs.Data.{no_members, object};
ghost use Rattle.serde_json.specs.View.{members_view};
ghost use Rattle.core_history.specs.Parts.{collector_data, collector_in};

use crate::part::Part;
use fleet::Collector;
use json_values::{Spelled, member};
use serde_json::{Map, Value, put};
use std::alloc::{AllocError, Global};

impl Part for Collector {
    ghost part_in = { collector_in };

    #[tactic(auto, unfolding(crate::specs::Parts::collector_in))]
    fn read(alloc: Global, value: &Value) -> Result<Option<Collector>, AllocError> {
        let Some(draining) = value.get("draining").and_then(Value::as_bool) else {
            return Ok(None);
        };
        let Some(id) = member(alloc, value, "id")? else {
            return Ok(None);
        };
        let Some(limits) = member(alloc, value, "limits")? else {
            return Ok(None);
        };
        let Some(name) = member(alloc, value, "name")? else {
            return Ok(None);
        };
        let Some(reach) = member(alloc, value, "reach")? else {
            return Ok(None);
        };
        Ok(Some(Collector {
            id,
            name,
            reach,
            draining,
            limits,
        }))
    }

    ghost part_data = { collector_data };

    fn write(&self, alloc: Global) -> Result<Value, AllocError> {
        let mut members = Map::new(alloc);
        match put_collector(alloc, self, &mut members) {
            Ok(()) => Ok(Value::Object(members)),
            Err(error) => {
                drop(members);
                Err(error)
            }
        }
    }
}

/// Puts the members of a collector into an empty object.
#[tactic(auto, unfolding(crate::specs::Parts::collector_in))]
fn put_collector(
    alloc: Global,
    collector: &Collector,
    members: &mut Map<String, Value>,
) -> Result<(), AllocError>
    requires { members_view members.old.entries ≡ no_members }
    ensures form { OnOk result (object (members_view members.new.entries) ≡ collector_data collector.now) }
    ensures reads_back { OnOk result (collector_in (object (members_view members.new.entries)) ≡ Some collector.now) }
{
    put(members, alloc, "draining", Value::from(collector.draining))?;
    let id = collector.id.write(alloc)?;
    put(members, alloc, "id", id)?;
    let limits = collector.limits.write(alloc)?;
    put(members, alloc, "limits", limits)?;
    let name = collector.name.write(alloc)?;
    put(members, alloc, "name", name)?;
    let reach = collector.reach.write(alloc)?;
    put(members, alloc, "reach", reach)
}
