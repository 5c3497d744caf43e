//! The limits that a collector has of its own.
use crate::reach::refused_by;
use crate::values::{NONE, json_in, number_at, text_at};
use json_values::{Spelled, parse};
use lists::{List, Plain, Text};
use reach_rules::OwnLimits;
use serde_json::Value;
use std::alloc::{AllocError, Global};

/// An object of limits, written.
pub(crate) fn own_limits(alloc: Global, text: &str) -> Result<String, AllocError> {
    match parse(alloc, text.as_bytes())? {
        Some(value) => {
            let line = own_limits_of(alloc, &value);
            drop(value);
            line
        }
        None => String::from_str(alloc, NONE),
    }
}

fn own_limits_of(alloc: Global, value: &Value) -> Result<String, AllocError> {
    match OwnLimits::read(alloc, value) {
        Ok(limits) => {
            let line = written(alloc, &limits);
            drop(limits);
            line
        }
        Err(error) => refused_by(alloc, error),
    }
}

fn written(alloc: Global, limits: &OwnLimits) -> Result<String, AllocError> {
    json_in(alloc, limits.write(alloc))
}

/// A list of entries: the limits, how many there are, and those of the jobs `a` to `d`.
pub(crate) fn limits(alloc: Global, text: &str) -> Result<String, AllocError> {
    match parse(alloc, text.as_bytes())? {
        Some(value) => {
            let line = shown_of(alloc, &value);
            drop(value);
            line
        }
        None => String::from_str(alloc, NONE),
    }
}

fn shown_of(alloc: Global, value: &Value) -> Result<String, AllocError> {
    match limits_of(alloc, value) {
        Ok(limits) => {
            let line = shown(alloc, &limits);
            drop(limits);
            line
        }
        Err(error) => Err(error),
    }
}

fn limits_of(alloc: Global, value: &Value) -> Result<OwnLimits, AllocError> {
    match entries_of(alloc, value) {
        Ok(entries) => {
            let limits = OwnLimits::of(alloc, entries.as_slice());
            drop(entries);
            limits
        }
        Err(error) => Err(error),
    }
}

fn entries_of(alloc: Global, value: &Value) -> Result<List<(Text, u32)>, AllocError> {
    let mut entries = List::new(alloc);
    match push_entries(alloc, &mut entries, value) {
        Ok(()) => Ok(entries),
        Err(error) => {
            drop(entries);
            Err(error)
        }
    }
}

fn push_entries(
    alloc: Global,
    entries: &mut List<(Text, u32)>,
    value: &Value,
) -> Result<(), AllocError> {
    if let Some(items) = value.as_array() {
        for item in items.as_slice() {
            entries.push((
                Text::from_str(alloc, text_at(item, 0).unwrap_or(""))?,
                limit_at(item),
            ))?;
        }
    }
    Ok(())
}

/// The limit of an entry, 0 where it has none.
fn limit_at(entry: &Value) -> u32 {
    u32::try_from(number_at(entry, 1).unwrap_or(0)).unwrap_or(0)
}

fn shown(alloc: Global, limits: &OwnLimits) -> Result<String, AllocError> {
    let count = limits.entries().len();
    let [a, b, c, d] = ["a", "b", "c", "d"].map(|job| limits.limit(job));
    match written(alloc, limits) {
        Ok(json) => format!(in alloc; "{json} {count} {a} {b} {c} {d}"),
        Err(error) => Err(error),
    }
}

/// Limits that are set one after the other, beginning with none: before the first and after each whether there is none, and the limits.
pub(crate) fn limit_steps(alloc: Global, text: &str) -> Result<String, AllocError> {
    match parse(alloc, text.as_bytes())? {
        Some(Value::Array(steps)) => {
            let line = all_steps(alloc, steps.as_slice());
            drop(steps);
            line
        }
        other => {
            drop(other);
            String::from_str(alloc, NONE)
        }
    }
}

fn all_steps(alloc: Global, steps: &[Value]) -> Result<String, AllocError> {
    let mut limits = OwnLimits::none(alloc);
    let all = said_of(alloc, &mut limits, steps);
    drop(limits);
    all
}

fn said_of(alloc: Global, limits: &mut OwnLimits, steps: &[Value]) -> Result<String, AllocError> {
    let mut all = String::new(alloc);
    add_limits(alloc, &mut all, limits)?;
    for step in steps {
        limits.set(text_at(step, 0).unwrap_or(""), limit_at(step))?;
        add_limits(alloc, &mut all, limits)?;
    }
    Ok(all)
}

fn add_limits(alloc: Global, all: &mut String, limits: &OwnLimits) -> Result<(), AllocError> {
    match stepped(alloc, limits) {
        Ok(said) => all.push_str(said.as_str()),
        Err(error) => Err(error),
    }
}

fn stepped(alloc: Global, limits: &OwnLimits) -> Result<String, AllocError> {
    let none = limits.is_empty();
    let (a, b) = (limits.limit("a"), limits.limit("b"));
    match written(alloc, limits) {
        Ok(json) => format!(in alloc; "{none} {json} {a} {b}; "),
        Err(error) => Err(error),
    }
}

/// A list of two lists of entries: whether they are the same limits.
pub(crate) fn same_limits(alloc: Global, text: &str) -> Result<String, AllocError> {
    match parse(alloc, text.as_bytes())? {
        Some(Value::Array(both)) => {
            let line = compared_in(alloc, both.as_slice());
            drop(both);
            line
        }
        other => {
            drop(other);
            String::from_str(alloc, NONE)
        }
    }
}

fn compared_in(alloc: Global, both: &[Value]) -> Result<String, AllocError> {
    match both {
        [one, other] => compared(alloc, one, other),
        _ => String::from_str(alloc, NONE),
    }
}

fn compared(alloc: Global, one: &Value, other: &Value) -> Result<String, AllocError> {
    match limits_of(alloc, one) {
        Ok(limits) => {
            let line = compared_with(alloc, &limits, other);
            drop(limits);
            line
        }
        Err(error) => Err(error),
    }
}

fn compared_with(alloc: Global, limits: &OwnLimits, other: &Value) -> Result<String, AllocError> {
    match limits_of(alloc, other) {
        Ok(other) => {
            let same = limits.same(&other);
            drop(other);
            format!(in alloc; "{same}")
        }
        Err(error) => Err(error),
    }
}
