//! At which member a body is not of the documented shape.
ghost use Rattle.std.specs.Prelude.{◌≡◌, IfOk};
ghost use Rattle.serde_json.specs.View.{view};
ghost use Rattle.serde_json.specs.Written.{compact_text};
ghost use Rattle.sd_routes.specs.Responses.{misshapen_data};

use crate::ask::Ask;
use crate::join_members::{is_short_rule, other_member};
use fleet_events::{read_outcome, read_report};
use json_values::{FromJson, number, parse, text_of};
use label_sets::{LabelError, LabelName};
use lists::Text;
use reach_rules::ReachRule;
use serde_json::{Value, json};
use std::alloc::{AllocError, Global};

/// The object that tells a member.
#[tactic(auto, using(crate::proofs::Floats::misshapen_no_float))]
pub(crate) fn misshapen_page(alloc: Global, member: &str) -> Result<Text, AllocError>
    ensures { IfOk result (λ t. t ≡ compact_text (misshapen_data member.now)) }
{
    let page = misshapen_value(alloc, member)?;
    text_of(alloc, &page)
}

fn misshapen_value(alloc: Global, member: &str) -> Result<Value, AllocError>
    ensures { IfOk result (λ v. view v ≡ misshapen_data member.now) }
{
    json!(in alloc; {"member": member, "refused": "Shape"})
}

/// The way to the first member at fault of a body that is refused as `Shape`. None where the body is no JSON object.
pub fn misshapen_member(alloc: Global, ask: &Ask, body: &[u8]) -> Result<Option<Text>, AllocError> {
    let Some(value) = parse(alloc, body)? else {
        return Ok(None);
    };
    if !value.is_object() {
        return Ok(None);
    }
    let found = match ask {
        Ask::Join => join_fault(alloc, &value)?,
        Ask::SetLimits(_) => limits_fault(alloc, value.get("limits"))?,
        Ask::Report => reports_fault(alloc, &value)?,
        _ => None,
    };
    Ok(found.map(Text::from_string))
}

fn join_fault(alloc: Global, value: &Value) -> Result<Option<String>, AllocError> {
    if let Some(name) = other_name(value) {
        return named(alloc, name);
    }
    if value.get("name").and_then(Value::as_str).is_none() {
        return named(alloc, "name");
    }
    if let Some(fault) = reach_fault(alloc, value.get("reach"))? {
        return Ok(Some(fault));
    }
    match value.get("limits") {
        None => Ok(None),
        limits => limits_fault(alloc, limits),
    }
}

/// The first member that a join has not.
fn other_name(value: &Value) -> Option<&str> {
    match value.as_object() {
        Some(members) => other_member(members),
        None => None,
    }
}

fn named(alloc: Global, name: &str) -> Result<Option<String>, AllocError> {
    Ok(Some(String::from_str(alloc, name)?))
}

fn reach_fault(alloc: Global, found: Option<&Value>) -> Result<Option<String>, AllocError> {
    let Some(rules) = found.and_then(Value::as_array) else {
        return named(alloc, "reach");
    };
    for (index, rule) in rules.iter().enumerate() {
        if !is_rule(alloc, rule)? {
            return Ok(Some(rule_fault(alloc, index, rule)?));
        }
    }
    Ok(None)
}

/// Whether the value is a rule whose texts are short enough.
fn is_rule(alloc: Global, rule: &Value) -> Result<bool, AllocError> {
    let read: Option<ReachRule> = FromJson::read(alloc, rule)?;
    match read {
        Some(_) => Ok(is_short_rule(rule)),
        None => Ok(false),
    }
}

fn rule_fault(alloc: Global, index: usize, rule: &Value) -> Result<String, AllocError> {
    if !rule.is_object() {
        return format!(in alloc; "reach[{index}]");
    }
    let member = member_of_rule(alloc, rule)?;
    format!(in alloc; "reach[{index}].{member}")
}

/// The member at fault of an object that is no rule.
fn member_of_rule(alloc: Global, rule: &Value) -> Result<&'static str, AllocError> {
    if rule.get("allow").and_then(Value::as_bool).is_none() {
        return Ok("allow");
    }
    match rule.get("test").and_then(Value::as_str) {
        Some("present") => Ok("label"),
        Some("equals") if is_label(alloc, rule.get("label"))? => Ok("value"),
        Some("equals") => Ok("label"),
        _ => Ok("test"),
    }
}

fn is_label(alloc: Global, found: Option<&Value>) -> Result<bool, AllocError> {
    let Some(name) = found.and_then(Value::as_str) else {
        return Ok(false);
    };
    match LabelName::read(alloc, name) {
        Ok(_) => Ok(true),
        Err(LabelError::Memory) => Err(AllocError),
        Err(LabelError::BadLabelName) => Ok(false),
    }
}

/// The limits, where they are no object, or else the limit that is no number.
fn limits_fault(alloc: Global, found: Option<&Value>) -> Result<Option<String>, AllocError> {
    let Some(limits) = found.and_then(Value::as_object) else {
        return named(alloc, "limits");
    };
    for (job, limit) in limits.iter() {
        if number(limit).is_none() {
            let job = job.as_str();
            return Ok(Some(format!(in alloc; "limits.{job}")?));
        }
    }
    Ok(None)
}

fn has_number(value: &Value, name: &str) -> bool {
    match value.get(name) {
        Some(found) => number(found).is_some(),
        None => false,
    }
}

/// The first member at fault of a report, or of a list of them.
fn reports_fault(alloc: Global, value: &Value) -> Result<Option<String>, AllocError> {
    let Some(found) = value.get("reports") else {
        return report_fault(alloc, value);
    };
    for name in ["collector", "number", "round"] {
        if !has_number(value, name) {
            return named(alloc, name);
        }
    }
    match found.as_array() {
        Some(entries) => match entry_fault(alloc, entries.as_slice())? {
            Some(fault) => Ok(Some(fault)),
            None => named(alloc, "epoch"),
        },
        None => named(alloc, "reports"),
    }
}

/// The first of some reports that is none, with its member at fault.
fn entry_fault(alloc: Global, entries: &[Value]) -> Result<Option<String>, AllocError> {
    for (index, entry) in entries.iter().enumerate() {
        if !entry.is_object() {
            return Ok(Some(format!(in alloc; "reports[{index}]")?));
        }
        if let Some(member) = outcome_fault(alloc, entry)? {
            return Ok(Some(format!(in alloc; "reports[{index}].{member}")?));
        }
    }
    Ok(None)
}

/// The member of an entry of a list of reports that is none.
fn outcome_fault(alloc: Global, entry: &Value) -> Result<Option<&'static str>, AllocError> {
    if !has_number(entry, "target") {
        return Ok(Some("target"));
    }
    if entry.get("up").and_then(Value::as_bool).is_none() {
        return Ok(Some("up"));
    }
    match read_outcome(alloc, entry)? {
        Some(_) => Ok(None),
        None => Ok(Some("samples")),
    }
}

/// The first member of a report that is none. Where the report is whole, that is its epoch.
fn report_fault(alloc: Global, value: &Value) -> Result<Option<String>, AllocError> {
    if is_report(alloc, value)? {
        return named(alloc, "epoch");
    }
    for name in ["collector", "number", "target", "round"] {
        if !has_number(value, name) {
            return named(alloc, name);
        }
    }
    if value.get("up").and_then(Value::as_bool).is_none() {
        return named(alloc, "up");
    }
    named(alloc, "samples")
}

fn is_report(alloc: Global, value: &Value) -> Result<bool, AllocError> {
    match read_report(alloc, value)? {
        Some(event) => {
            drop(event);
            Ok(true)
        }
        None => Ok(false),
    }
}
