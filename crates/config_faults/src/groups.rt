//! What is wrong with the static groups of a job.
use label_sets::{LabelError, LabelName};
use logfmt::Quoted;
use sd_documents::{SdError, read_group};
use serde_json::{Map, Value};
use std::alloc::{AllocError, Global};

/// The first group that is none, and why.
pub(crate) fn groups_fault(alloc: Global, job: &Value) -> Result<String, AllocError> {
    let Some(groups) = job.get("static_configs").and_then(Value::as_array) else {
        return String::from_str(alloc, "static_configs: no list");
    };
    for (index, group) in groups.iter().enumerate() {
        if !is_group(alloc, group)? {
            return group_fault(alloc, index, group);
        }
    }
    String::from_str(alloc, "static_configs: another shape")
}

fn is_group(alloc: Global, group: &Value) -> Result<bool, AllocError> {
    match read_group(alloc, group) {
        Ok(_) => Ok(true),
        Err(SdError::Memory) => Err(AllocError),
        Err(_) => Ok(false),
    }
}

fn group_fault(alloc: Global, index: usize, group: &Value) -> Result<String, AllocError> {
    if !group.is_object() {
        return format!(in alloc; "static_configs[{index}]: no object");
    }
    if let Some(why) = targets_fault(alloc, index, group.get("targets"))? {
        return Ok(why);
    }
    labels_fault(alloc, index, group.get("labels"))
}

fn targets_fault(
    alloc: Global,
    index: usize,
    found: Option<&Value>,
) -> Result<Option<String>, AllocError> {
    match found {
        None | Some(Value::Null) => Ok(None),
        Some(Value::Array(targets)) => target_fault(alloc, index, targets.as_slice()),
        Some(_) => Ok(Some(format!(in alloc; "static_configs[{index}].targets: no list")?)),
    }
}

fn target_fault(
    alloc: Global,
    index: usize,
    targets: &[Value],
) -> Result<Option<String>, AllocError> {
    for (place, target) in targets.iter().enumerate() {
        if !target.is_string() {
            return Ok(Some(format!(in alloc;
                "static_configs[{index}].targets[{place}]: no text"
            )?));
        }
    }
    Ok(None)
}

fn labels_fault(alloc: Global, index: usize, found: Option<&Value>) -> Result<String, AllocError> {
    match found.and_then(Value::as_object) {
        Some(labels) => label_fault(alloc, index, labels),
        None => format!(in alloc; "static_configs[{index}].labels: no object"),
    }
}

fn label_fault(
    alloc: Global,
    index: usize,
    labels: &Map<String, Value>,
) -> Result<String, AllocError> {
    for (name, value) in labels.iter() {
        let name = name.as_str();
        if !is_label_name(alloc, name)? {
            let name = Quoted(name);
            return format!(in alloc; "static_configs[{index}].labels: {name} is no label name");
        }
        if !value.is_string() {
            return format!(in alloc; "static_configs[{index}].labels.{name}: no text");
        }
    }
    format!(in alloc; "static_configs[{index}].labels: another shape")
}

/// Whether a text is a label name.
pub(crate) fn is_label_name(alloc: Global, text: &str) -> Result<bool, AllocError> {
    match LabelName::read(alloc, text) {
        Ok(_) => Ok(true),
        Err(LabelError::Memory) => Err(AllocError),
        Err(LabelError::BadLabelName) => Ok(false),
    }
}
