//! Relabelling rules.
use crate::answers::READ;
use json_values::parse;
use relabel::{RuleError, Rules, RulesError};
use serde_json::Value;
use std::alloc::{AllocError, Global};

/// A list of relabelling rules.
pub(crate) fn rules(alloc: Global, bytes: &[u8]) -> Result<String, AllocError> {
    match parse(alloc, bytes)? {
        Some(Value::Array(values)) => {
            let line = said_of(alloc, values.as_slice());
            drop(values);
            line
        }
        other => {
            drop(other);
            String::from_str(alloc, "no list")
        }
    }
}

fn said_of(alloc: Global, values: &[Value]) -> Result<String, AllocError> {
    match rules_of(alloc, values)? {
        Ok(rules) => {
            drop(rules);
            String::from_str(alloc, READ)
        }
        Err(error) => format!(in alloc; "{error}"),
    }
}

/// The rules of a JSON list, or their refusal. Want of memory is passed on.
pub(crate) fn rules_of(
    alloc: Global,
    values: &[Value],
) -> Result<Result<Rules, RulesError>, AllocError> {
    match Rules::read(alloc, values) {
        Err(
            RulesError {
                error: RuleError::Memory,
                ..
            },
        ) => Err(AllocError),
        outcome => Ok(outcome),
    }
}
