//! Names, rules and reaches as JSON values, in both directions.
ghost use Rattle.std.specs.Prelude.{◌≡◌, ◌≤◌, Some, IfOk};
ghost use Rattle.serde_json.specs.Data.{string};
ghost use Rattle.serde_json.specs.View.{view};
ghost use Rattle.reach_rules.specs.Name.{collector_name, name_in};
ghost use Rattle.reach_rules.specs.Spelling.{rule_spelled, rule_data, rule_data_of, reach_in, reach_data};

use crate::error::{NameError, ReachError};
use crate::name::CollectorName;
use crate::reach::Reach;
use crate::read::rule_of;
use crate::rule::{ReachRule, ReachTest};
use json_values::{FromJson, Spelled, array_of};
use label_sets::LabelName;
use lists::Text;
use serde_json::{Value, json};
use std::alloc::{AllocError, Global};

impl FromJson for CollectorName {
    ghost spelled = { name_in };

    fn read(alloc: Global, value: &Value) -> Result<Option<CollectorName>, AllocError> {
        match value.as_str() {
            Some(name) => name_from(alloc, name),
            None => Ok(None),
        }
    }
}

impl Spelled for CollectorName {
    ghost spelling = { string };

    fn write(&self, alloc: Global) -> Result<Value, AllocError> {
        Ok(Value::String(String::from_str(alloc, self.as_str())?))
    }
}

fn name_from(alloc: Global, name: &str) -> Result<Option<CollectorName>, AllocError>
    ensures { IfOk result (λ o. o ≡ collector_name name.now) }
{
    match CollectorName::read(alloc, name) {
        Ok(name) => Ok(Some(name)),
        Err(NameError::BadName) => Ok(None),
        Err(NameError::Memory) => Err(AllocError),
    }
}

impl FromJson for ReachRule {
    ghost spelled = { rule_spelled };

    fn read(alloc: Global, value: &Value) -> Result<Option<ReachRule>, AllocError> {
        match rule_of(alloc, value) {
            Ok(rule) => Ok(Some(rule)),
            Err(ReachError::Memory) => Err(AllocError),
            Err(_) => Ok(None),
        }
    }
}

impl Spelled for ReachRule {
    ghost spelling = { rule_data };

    fn write(&self, alloc: Global) -> Result<Value, AllocError> {
        match &self.test {
            ReachTest::Any => any_value(alloc, self.allow),
            ReachTest::Present(label) => present_value(alloc, self.allow, label),
            ReachTest::Equals(label, text) => equals_value(alloc, self.allow, label, text),
        }
    }
}

fn any_value(alloc: Global, allow: bool) -> Result<Value, AllocError>
    ensures form { IfOk result (λ v. view v ≡ rule_data_of allow ReachTest.Any) }
    ensures reads_back { IfOk result (λ v. rule_spelled (view v) ≡ Some (record { allow = allow; test = ReachTest.Any })) }
{
    json!(in alloc; {"allow": allow, "test": "any"})
}

fn present_value(alloc: Global, allow: bool, label: &LabelName) -> Result<Value, AllocError>
    ensures form { IfOk result (λ v. view v ≡ rule_data_of allow (ReachTest.Present label.now)) }
    ensures reads_back { IfOk result (λ v. rule_spelled (view v) ≡ Some (record { allow = allow; test = ReachTest.Present label.now })) }
{
    let label = label.as_str();
    json!(in alloc; {"allow": allow, "label": label, "test": "present"})
}

fn equals_value(
    alloc: Global,
    allow: bool,
    label: &LabelName,
    text: &Text,
) -> Result<Value, AllocError>
    ensures form { IfOk result (λ v. view v ≡ rule_data_of allow (ReachTest.Equals label.now text.now)) }
    ensures reads_back { IfOk result (λ v. rule_spelled (view v) ≡ Some (record { allow = allow; test = ReachTest.Equals label.now text.now })) }
{
    let label = label.as_str();
    let text = text.as_str();
    json!(in alloc; {"allow": allow, "label": label, "test": "equals", "value": text})
}

impl FromJson for Reach {
    ghost spelled = { reach_in };

    fn read(alloc: Global, value: &Value) -> Result<Option<Reach>, AllocError> {
        match Reach::read(alloc, value) {
            Ok(reach) => Ok(Some(reach)),
            Err(ReachError::Memory) => Err(AllocError),
            Err(_) => Ok(None),
        }
    }
}

impl Spelled for Reach {
    ghost spelling = { reach_data };

    fn write(&self, alloc: Global) -> Result<Value, AllocError> {
        array_of(alloc, self.rules())
    }
}
