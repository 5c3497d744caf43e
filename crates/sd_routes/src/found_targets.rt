//! The JSON text of targets that were searched for.
ghost use Rattle.std.specs.Prelude.{◌≡◌, IfOk, OnOk};
ghost use Rattle.serde_json.specs.Data.{object, no_members};
ghost use Rattle.serde_json.specs.View.{view, items_view, members_view};
ghost use Rattle.serde_json.specs.Written.{compact_text};
ghost use Rattle.json_values.specs.Spelling.{items_data};
ghost use Rattle.sd_routes.specs.FoundPages.{found_data, holder_data, target_data};

use crate::collector_row::small_or_null;
use crate::members::{object_of, put_text};
use crate::pages::labels_value;
use fleet_events::{AllocationNumber, Round};
use json_values::text_of;
use lists::Text;
use reach_rules::CollectorName;
use serde_json::{Map, Value, json, put};
use std::alloc::{AllocError, Global};
use target_shares::NumberedTarget;

/// A live target that was searched for.
#[derive(Debug, Drop)]
pub struct FoundTarget {
    pub job: Text,
    pub target: NumberedTarget,
    /// The collector that holds it, if one does.
    pub collector: Option<CollectorName>,
    /// Whether that collector's list leaves it out, since another list has it.
    pub handing_over: bool,
    /// From which allocation on the collector has held it without a break.
    pub since: Option<AllocationNumber>,
    /// The last round of which a report of it is booked, if one is.
    pub last_round: Option<Round>,
}

/// How many targets were found, and the first of them: an object.
pub fn found_page(alloc: Global, all: u32, found: &[FoundTarget]) -> Result<Text, AllocError>
    ensures { IfOk result (λ t. t ≡ compact_text (found_data all found.now)) }
{
    let page = found_value(alloc, all, found)?;
    text_of(alloc, &page)
}

fn found_value(alloc: Global, all: u32, found: &[FoundTarget]) -> Result<Value, AllocError>
    ensures { IfOk result (λ v. view v ≡ found_data all found.now) }
{
    let targets = Value::Array(target_values(alloc, found)?);
    json!(in alloc; {"all": all, "targets": targets})
}

fn target_values(alloc: Global, found: &[FoundTarget]) -> Result<Vec<Value>, AllocError>
    ensures { IfOk result (λ vs. items_view vs.items ≡ items_data target_data found.now) }
{
    let mut values = Vec::with_capacity(alloc, found.len())?;
    for target in found {
        values.push(target_value(alloc, target)?)?;
    }
    Ok(values)
}

fn target_value(alloc: Global, found: &FoundTarget) -> Result<Value, AllocError>
    ensures { IfOk result (λ v. view v ≡ target_data found.now) }
{
    let mut members = Map::new(alloc);
    let done = put_target(&mut members, alloc, found);
    object_of(done, members)
}

fn put_target(
    members: &mut Map<String, Value>,
    alloc: Global,
    found: &FoundTarget,
) -> Result<(), AllocError>
    requires { members_view members.old.entries ≡ no_members }
    ensures { OnOk result (object (members_view members.new.entries) ≡ target_data found.now) }
{
    let collector = holder_value(alloc, &found.collector)?;
    put(members, alloc, "collector", collector)?;
    put(
        members,
        alloc,
        "handing_over",
        Value::from(found.handing_over),
    )?;
    put_text(members, alloc, "job", found.job.as_str())?;
    let numbered = &found.target;
    let labels = labels_value(alloc, numbered.target.labels().entries(), numbered.number)?;
    put(members, alloc, "labels", labels)?;
    put(
        members,
        alloc,
        "last_round",
        small_or_null(found.last_round),
    )?;
    put(members, alloc, "since", small_or_null(found.since))?;
    put_text(members, alloc, "target", numbered.target.get("__address__"))
}

fn holder_value(alloc: Global, holder: &Option<CollectorName>) -> Result<Value, AllocError>
    ensures { IfOk result (λ v. view v ≡ holder_data holder.now) }
{
    match holder {
        Some(name) => Value::try_from_str(alloc, name.as_str()),
        None => Ok(Value::Null),
    }
}
