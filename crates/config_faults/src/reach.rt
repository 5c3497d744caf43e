//! What is wrong with the reach rules that a collector joins with.
use crate::collectors::Entry;
use crate::rules::is_label;
use json_values::FromJson;
use reach_rules::ReachRule;
use serde_json::Value;
use std::alloc::{AllocError, Global};

/// The rule that is none, and why, or else the line.
pub(crate) fn reach_fault(
    alloc: Global,
    document: &Value,
    line: &str,
    entry: Entry,
) -> Result<String, AllocError> {
    let Some(found) = entry.member(document, "reach") else {
        return format!(in alloc; "{line}: it is missing");
    };
    let Some(rules) = found.as_array() else {
        return String::from_str(alloc, line);
    };
    for (place, rule) in rules.iter().enumerate() {
        if !is_rule(alloc, rule)? {
            return rule_line(alloc, entry, place, rule);
        }
    }
    format!(in alloc; "{line}: it has more than 32 rules")
}

fn is_rule(alloc: Global, rule: &Value) -> Result<bool, AllocError> {
    let read: Option<ReachRule> = FromJson::read(alloc, rule)?;
    Ok(read.is_some())
}

fn rule_line(
    alloc: Global,
    entry: Entry,
    place: usize,
    rule: &Value,
) -> Result<String, AllocError> {
    let why = rule_fault(alloc, rule)?;
    format!(in alloc; "{entry}.reach[{place}]{why}")
}

/// What is wrong with a rule, behind the way to it.
fn rule_fault(alloc: Global, rule: &Value) -> Result<&'static str, AllocError> {
    if !rule.is_object() {
        return Ok(": no object");
    }
    match rule.get("allow") {
        None => return Ok(".allow: it is missing, true or false"),
        Some(Value::Bool(_)) => {}
        Some(_) => return Ok(".allow: neither true nor false"),
    }
    match rule.get("test").and_then(Value::as_str) {
        Some("present") => label_fault(alloc, rule),
        Some("equals") => equals_fault(alloc, rule),
        _ => Ok(".test: neither any, present nor equals"),
    }
}

fn equals_fault(alloc: Global, rule: &Value) -> Result<&'static str, AllocError> {
    match rule.get("label") {
        Some(label) if is_label(alloc, label)? => Ok(".value: the test equals needs a text"),
        _ => label_fault(alloc, rule),
    }
}

fn label_fault(_alloc: Global, rule: &Value) -> Result<&'static str, AllocError> {
    match rule.get("label") {
        None => Ok(".label: it is missing, and its test needs a label name"),
        Some(_) => Ok(".label: no label name"),
    }
}
