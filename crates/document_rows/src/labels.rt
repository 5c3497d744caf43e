//! Label names, label sets and final targets.
use crate::values::{NONE, text_at};
use json_values::parse;
use label_sets::{Finished, LabelError, LabelName, Labels, Target, finish};
use serde_json::Value;
use std::alloc::{AllocError, Global};

/// A label's name, read.
pub(crate) fn label_name(alloc: Global, text: &str) -> Result<String, AllocError> {
    match LabelName::read(alloc, text) {
        Ok(name) => String::from_str(alloc, name.as_str()),
        Err(error) => said_by(alloc, error),
    }
}

/// A list of pairs to set and of names to remove, one after the other: after each the label set, and what it has of the name.
pub(crate) fn label_steps(alloc: Global, text: &str) -> Result<String, AllocError> {
    match parse(alloc, text.as_bytes())? {
        Some(Value::Array(steps)) => {
            let line = all_steps(alloc, steps.as_slice());
            drop(steps);
            line
        }
        other => {
            drop(other);
            String::from_str(alloc, NONE)
        }
    }
}

fn all_steps(alloc: Global, steps: &[Value]) -> Result<String, AllocError> {
    let mut labels = Labels::new(alloc);
    let all = said_of(alloc, &mut labels, steps);
    drop(labels);
    all
}

fn said_of(alloc: Global, labels: &mut Labels, steps: &[Value]) -> Result<String, AllocError> {
    let mut all = String::new(alloc);
    for step in steps {
        add_step(alloc, &mut all, labels, step)?;
    }
    Ok(all)
}

fn add_step(
    alloc: Global,
    all: &mut String,
    labels: &mut Labels,
    step: &Value,
) -> Result<(), AllocError> {
    match stepped(alloc, labels, step) {
        Ok(said) => {
            all.push_str(said.as_str())?;
            all.push_str("; ")
        }
        Err(error) => Err(error),
    }
}

fn stepped(alloc: Global, labels: &mut Labels, step: &Value) -> Result<String, AllocError> {
    let name = text_at(step, 0).unwrap_or("");
    match changed(labels, name, text_at(step, 1)) {
        Ok(()) => shown(alloc, labels, name),
        Err(error) => said_by(alloc, error),
    }
}

fn changed(labels: &mut Labels, name: &str, text: Option<&str>) -> Result<(), LabelError> {
    match text {
        Some(text) => labels.set(name, text),
        None => {
            labels.remove(name);
            Ok(())
        }
    }
}

fn shown(alloc: Global, labels: &Labels, name: &str) -> Result<String, AllocError> {
    match labels.to_json() {
        Ok(json) => format!(in alloc; "{} {:?}", json.as_str(), labels.get(name)),
        Err(error) => Err(error),
    }
}

/// An object as a label set, finished: the group of its target, and its `__address__`, `__meta_z` and `zone`.
pub(crate) fn finished(alloc: Global, text: &str) -> Result<String, AllocError> {
    match parse(alloc, text.as_bytes())? {
        Some(value) => {
            let line = finished_of(alloc, &value);
            drop(value);
            line
        }
        None => String::from_str(alloc, NONE),
    }
}

fn finished_of(alloc: Global, value: &Value) -> Result<String, AllocError> {
    match labels_in(alloc, value) {
        Ok(labels) => {
            let line = target_of(alloc, &labels);
            drop(labels);
            line
        }
        Err(error) => said_by(alloc, error),
    }
}

/// The labels of an object's texts.
pub(crate) fn labels_in(alloc: Global, value: &Value) -> Result<Labels, LabelError> {
    let mut labels = Labels::new(alloc);
    match set_members(&mut labels, value) {
        Ok(()) => Ok(labels),
        Err(error) => {
            drop(labels);
            Err(error)
        }
    }
}

fn set_members(labels: &mut Labels, value: &Value) -> Result<(), LabelError> {
    if let Some(members) = value.as_object() {
        for (name, text) in members.iter() {
            labels.set(name.as_str(), text.as_str().unwrap_or(""))?;
        }
    }
    Ok(())
}

fn target_of(alloc: Global, labels: &Labels) -> Result<String, AllocError> {
    match finish(alloc, labels)? {
        Finished::Target(target) => {
            let line = shown_target(alloc, &target);
            drop(target);
            line
        }
        Finished::NoAddress => String::from_str(alloc, "no address"),
    }
}

fn shown_target(alloc: Global, target: &Target) -> Result<String, AllocError> {
    let text = target.text();
    let address = target.get("__address__");
    let meta = target.get("__meta_z");
    let zone = target.labels().get("zone");
    format!(in alloc; "{text} [{address}] [{meta}] [{zone}]")
}

fn said_by(alloc: Global, error: LabelError) -> Result<String, AllocError> {
    match error {
        LabelError::BadLabelName => String::from_str(alloc, "BadLabelName"),
        LabelError::Memory => Err(AllocError),
    }
}
