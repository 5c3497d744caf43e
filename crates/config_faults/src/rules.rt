//! What is wrong with the relabelling rules of a job.
use crate::groups::is_label_name;
use crate::patterns::pattern_fault;
use relabel::{RuleError, Rules, RulesError};
use sd_documents::Job;
use serde_json::Value;
use std::alloc::{AllocError, Global};

/// The members of a rule that are texts.
const TEXTS: [&str; 5] = [
    "action",
    "regex",
    "replacement",
    "separator",
    "target_label",
];

/// What is wrong with the rules of a job that is read from an entry, if something is.
pub(crate) fn rules_fault(
    alloc: Global,
    read: &Job,
    entry: &Value,
) -> Result<Option<String>, AllocError> {
    match Rules::read(alloc, read.rules.as_slice()) {
        Ok(_) => Ok(None),
        Err(error) => Ok(Some(rule_line(alloc, entry, error)?)),
    }
}

/// The line of a refused rule, with what is at fault in it where that is known.
fn rule_line(alloc: Global, job: &Value, refused: RulesError) -> Result<String, AllocError> {
    if refused.error == RuleError::Memory {
        return Err(AllocError);
    }
    let rule = rule_at(job, refused.number);
    match refused.error {
        RuleError::Shape => shaped(alloc, refused, rule),
        RuleError::BadPattern => patterned(alloc, refused, rule),
        _ => format!(in alloc; "relabel_configs: {refused}"),
    }
}

/// The rule of a number, of which the first is 1.
fn rule_at(job: &Value, number: usize) -> Option<&Value> {
    let rules = job.get("relabel_configs")?.as_array()?;
    rules.as_slice().get(number.checked_sub(1)?)
}

fn shaped(alloc: Global, refused: RulesError, rule: Option<&Value>) -> Result<String, AllocError> {
    let number = refused.number;
    match rule {
        Some(rule) => {
            let why = member_fault(alloc, rule)?;
            let why = why.as_str();
            format!(in alloc; "relabel_configs: rule {number}: {why}")
        }
        None => format!(in alloc; "relabel_configs: {refused}"),
    }
}

/// The member of a rule that has another shape.
fn member_fault(alloc: Global, rule: &Value) -> Result<String, AllocError> {
    if let Some(why) = labels_fault(alloc, rule.get("source_labels"))? {
        return Ok(why);
    }
    for name in TEXTS.as_slice() {
        if let Some(value) = rule.get(*name) {
            if !value.is_string() {
                return format!(in alloc; "{name}: no text");
            }
        }
    }
    if let Some(value) = rule.get("modulus") {
        if value.as_u64().is_none() {
            return String::from_str(alloc, "modulus: no whole number");
        }
    }
    String::from_str(alloc, "target_label: no label name")
}

fn labels_fault(alloc: Global, found: Option<&Value>) -> Result<Option<String>, AllocError> {
    let Some(value) = found else {
        return Ok(None);
    };
    let Some(labels) = value.as_array() else {
        return Ok(Some(String::from_str(alloc, "source_labels: no list")?));
    };
    for (index, label) in labels.iter().enumerate() {
        if !is_label(alloc, label)? {
            return Ok(Some(format!(in alloc; "source_labels[{index}]: no label name")?));
        }
    }
    Ok(None)
}

/// Whether a value is the text of a label name.
pub(crate) fn is_label(alloc: Global, value: &Value) -> Result<bool, AllocError> {
    match value.as_str() {
        Some(text) => is_label_name(alloc, text),
        None => Ok(false),
    }
}

fn patterned(
    alloc: Global,
    refused: RulesError,
    rule: Option<&Value>,
) -> Result<String, AllocError> {
    match rule
        .and_then(|rule| rule.get("regex"))
        .and_then(Value::as_str)
    {
        Some(pattern) => {
            let why = pattern_fault(alloc, pattern)?;
            let why = why.as_str();
            format!(in alloc; "relabel_configs: {refused}: {why}")
        }
        None => format!(in alloc; "relabel_configs: {refused}"),
    }
}
