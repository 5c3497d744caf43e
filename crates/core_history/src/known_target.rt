//! Known targets as JSON values: the number of the job, and the text of the target's group. An object of the number and the group is read too,
//! as earlier versions wrote it.
ghost use Rattle.std.specs.Prelude.{◌≡◌, IfOk, Some, codes, string_bytes};
ghost use Rattle.serde_json.specs.View.{items_view, view};
ghost use Rattle.json_values.specs.Spelling.{member_in, number_data};
ghost use Rattle.serde_json.specs.Data.{array, item, no_items, string};
ghost use Rattle.label_sets.specs.Target.{target_text};
ghost use Rattle.fleet_events.specs.Targets.{target_in};
ghost use Rattle.core_history.specs.Parts.{known_by_group, known_by_text, known_data, known_in, known_pair, target_said};

use crate::part::{Part, part_member};
use fleet::KnownTarget;
use fleet_events::read_target;
use json_values::parse;
use label_sets::{Target, finishes_again, map_laws};
use serde_json::Value;
use std::alloc::{AllocError, Global};

impl Part for KnownTarget {
    ghost part_in = { known_in };

    #[tactic(auto, unfolding(crate::specs::Parts::known_in))]
    fn read(alloc: Global, value: &Value) -> Result<Option<KnownTarget>, AllocError> {
        match value.as_array() {
            Some(pair) => by_text(alloc, pair.as_slice()),
            None => by_group(alloc, value),
        }
    }

    ghost part_data = { known_data };

    #[tactic(auto, unfolding(crate::specs::Parts::known_in))]
    fn write(&self, alloc: Global) -> Result<Value, AllocError> {
        let text = group_text(alloc, &self.target)?;
        pair_value(alloc, self.job, text)
    }
}

/// The entry of the number of a job and the text of a group.
fn by_text(alloc: Global, pair: &[Value]) -> Result<Option<KnownTarget>, AllocError>
    ensures { IfOk result (λ o. o ≡ known_by_text (items_view pair.now)) }
{
    if pair.len() != 2 {
        return Ok(None);
    }
    known_pair(alloc, &pair[0], &pair[1])
}

fn known_pair(alloc: Global, job: &Value, text: &Value) -> Result<Option<KnownTarget>, AllocError>
    ensures { IfOk result (λ o. o ≡ known_pair (view job.now) (view text.now)) }
{
    let Some(job) = Part::read(alloc, job)? else {
        return Ok(None);
    };
    let Some(text) = text.as_str() else {
        return Ok(None);
    };
    match target_said(alloc, text)? {
        Some(target) => Ok(Some(KnownTarget { job, target })),
        None => Ok(None),
    }
}

/// The target that a text says.
#[tactic(auto, unfolding(crate::specs::Parts::target_said))]
fn target_said(alloc: Global, text: &str) -> Result<Option<Target>, AllocError>
    ensures { IfOk result (λ o. o ≡ target_said text.now) }
{
    match parse(alloc, text.as_bytes())? {
        Some(group) => read_target(alloc, &group),
        None => Ok(None),
    }
}

/// The entry of earlier versions.
fn by_group(alloc: Global, value: &Value) -> Result<Option<KnownTarget>, AllocError>
    ensures { IfOk result (λ o. o ≡ known_by_group (view value.now)) }
{
    let Some(job) = part_member(alloc, value, "job")? else {
        return Ok(None);
    };
    let Some(target) = target_member(alloc, value)? else {
        return Ok(None);
    };
    Ok(Some(KnownTarget { job, target }))
}

/// The target of an entry.
fn target_member(alloc: Global, value: &Value) -> Result<Option<Target>, AllocError>
    ensures { IfOk result (λ o. o ≡ member_in target_in (codes "target") (view value.now)) }
{
    match value.get("target") {
        Some(target) => read_target(alloc, target),
        None => Ok(None),
    }
}

/// The text of a target's group, which says the target again.
fn group_text(alloc: Global, target: &Target) -> Result<String, AllocError>
    ensures form { IfOk result (λ t. string_bytes t ≡ target_text target.now) }
    ensures reads_back { target_said (target_text target.now) ≡ Some target.now }
{
    map_laws();
    finishes_again();
    String::from_str(alloc, target.text())
}

/// The list of a job's number and a group's text.
fn pair_value(alloc: Global, job: usize, text: String) -> Result<Value, AllocError>
    ensures { IfOk result (λ v. view v ≡ array (item (number_data job) (item (string (string_bytes text)) no_items))) }
{
    let mut pair = Vec::with_capacity(alloc, 2)?;
    pair.push(Value::from(job))?;
    pair.push(Value::String(text))?;
    Ok(Value::Array(pair))
}
