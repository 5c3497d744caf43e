//! The targets of a discovery out of JSON.
ghost use Rattle.std.specs.Prelude.{◌≡◌, IfOk, option_map};
ghost use Rattle.serde_json.specs.View.{view, items_view};
ghost use Rattle.json_values.specs.Spelling.{all_in};
ghost use Rattle.fleet_events.specs.Targets.{only_address as the_only_address, target_at, target_of, group_in, target_in};
ghost use Rattle.fleet_events.specs.Reading.{targets_in};

use label_sets::{Finished, Labels, Target, finish};
use lists::{List, Text};
use sd_documents::{Group, SdError, read_group};
use serde_json::Value;
use std::alloc::{AllocError, Global};

/// The targets that a JSON value lists.
pub(crate) fn read_targets(alloc: Global, value: &Value) -> Result<Option<List<Target>>, AllocError>
    ensures { IfOk result (λ o. o ≡ targets_in (view value.now)) }
{
    match value.as_array() {
        Some(values) => read_each(alloc, values.as_slice()),
        None => Ok(None),
    }
}

fn read_each(alloc: Global, values: &[Value]) -> Result<Option<List<Target>>, AllocError>
    ensures { IfOk result (λ o. o ≡ all_in target_in (items_view values.now)) }
{
    let mut targets = List::new(alloc);
    for value in values {
        match read_target(alloc, value)? {
            Some(target) => targets.push(target)?,
            None => return Ok(None),
        }
    }
    Ok(Some(targets))
}

/// The target that a JSON value says, if it says one: a target group with exactly one target text, which is not empty.
#[tactic(auto, unfolding(crate::specs::Targets::target_in))]
pub fn read_target(alloc: Global, value: &Value) -> Result<Option<Target>, AllocError>
    ensures { IfOk result (λ o. o ≡ target_in (view value.now)) }
{
    match read_one_group(alloc, value)? {
        Some(group) => target_from(alloc, group),
        None => Ok(None),
    }
}

fn read_one_group(alloc: Global, value: &Value) -> Result<Option<Group>, AllocError>
    ensures { IfOk result (λ o. o ≡ group_in (view value.now)) }
{
    match read_group(alloc, value) {
        Ok(group) => Ok(Some(group)),
        Err(SdError::Memory) => Err(AllocError),
        Err(_) => Ok(None),
    }
}

fn target_from(alloc: Global, group: Group) -> Result<Option<Target>, AllocError>
    ensures { IfOk result (λ o. o ≡ target_of group) }
{
    let Group { targets, labels } = group;
    match only_address(targets.as_slice()) {
        Some(address) => place_at(alloc, labels, address),
        None => Ok(None),
    }
}

/// The one text, if there is just one and it is not empty.
fn only_address(targets: &[Text]) -> Option<&str>
    ensures { option_map (λ s. s.now) result ≡ the_only_address targets.now }
{
    match targets {
        [address] if !address.as_str().is_empty() => Some(address.as_str()),
        _ => None,
    }
}

/// The target of an address, whatever the labels say of it.
fn place_at(alloc: Global, mut labels: Labels, address: &str) -> Result<Option<Target>, AllocError>
    ensures { IfOk result (λ o. o ≡ target_at labels address.now) }
{
    if labels.set("__address__", address).is_err() {
        return Err(AllocError);
    }
    match finish(alloc, &labels)? {
        Finished::Target(target) => Ok(Some(target)),
        Finished::NoAddress => Ok(None),
    }
}
