//! Reading the rules of a reach.
ghost use Rattle.std.specs.Prelude.{◌≡◌, ◌≢◌, IfOk, IfErr, codes};
ghost use Rattle.serde_json.specs.View.{view, items_view};
ghost use Rattle.reach_rules.specs.Spelling.{label_member, test_spelled, rule_spelled, rules_spelled, reach_spelled, text_member, Gives};

use crate::error::ReachError;
use crate::rule::{ReachRule, ReachTest};
use label_sets::{LabelError, LabelName};
use lists::{List, Text};
use serde_json::Value;
use std::alloc::Global;

/// The rules that the items spell.
pub(crate) fn rules_of(alloc: Global, items: &[Value]) -> Result<List<ReachRule>, ReachError>
    ensures { Gives result (rules_spelled (items_view items.now)) }
{
    let mut rules = List::new(alloc);
    for item in items {
        let rule = rule_of(alloc, item)?;
        rules.push(rule)?;
    }
    Ok(rules)
}

pub(crate) fn rule_of(alloc: Global, value: &Value) -> Result<ReachRule, ReachError>
    ensures { Gives result (rule_spelled (view value.now)) }
{
    let allow = value
        .get("allow")
        .and_then(Value::as_bool)
        .ok_or(ReachError::Shape)?;
    let kind = value
        .get("test")
        .and_then(Value::as_str)
        .ok_or(ReachError::Shape)?;
    let test = test_of(alloc, kind, value)?;
    Ok(ReachRule { allow, test })
}

fn test_of(alloc: Global, kind: &str, value: &Value) -> Result<ReachTest, ReachError>
    ensures { Gives result (test_spelled kind.now (view value.now)) }
{
    if kind == "any" {
        return Ok(ReachTest::Any);
    }
    if kind == "present" {
        return Ok(ReachTest::Present(label_of(alloc, value)?));
    }
    if kind != "equals" {
        return Err(ReachError::Shape);
    }
    let label = label_of(alloc, value)?;
    let text = value_of(alloc, value)?;
    Ok(ReachTest::Equals(label, text))
}

fn label_of(alloc: Global, value: &Value) -> Result<LabelName, ReachError>
    ensures { Gives result (label_member (view value.now)) }
{
    let text = value
        .get("label")
        .and_then(Value::as_str)
        .ok_or(ReachError::Shape)?;
    match LabelName::read(alloc, text) {
        Ok(label) => Ok(label),
        Err(LabelError::BadLabelName) => Err(ReachError::Shape),
        Err(LabelError::Memory) => Err(ReachError::Memory),
    }
}

fn value_of(alloc: Global, value: &Value) -> Result<Text, ReachError>
    ensures { Gives result (text_member (codes "value") (view value.now)) }
{
    let text = value
        .get("value")
        .and_then(Value::as_str)
        .ok_or(ReachError::Shape)?;
    let text = Text::from_str(alloc, text)?;
    Ok(text)
}
