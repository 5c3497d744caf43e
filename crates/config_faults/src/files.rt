//! What is wrong with the sources of files of a job.
use file_configs::pattern_fault;
use logfmt::Quoted;
use serde_json::Value;
use service_settings::duration_of;
use std::alloc::{AllocError, Global};

/// The first source of files that is none, and why.
pub(crate) fn files_fault(alloc: Global, job: &Value) -> Result<Option<String>, AllocError> {
    let Some(found) = job.get("file_sd_configs") else {
        return Ok(None);
    };
    let Some(entries) = found.as_array() else {
        return Ok(Some(String::from_str(alloc, "file_sd_configs: no list")?));
    };
    for (index, entry) in entries.iter().enumerate() {
        if let Some(why) = entry_fault(alloc, index, entry)? {
            return Ok(Some(why));
        }
    }
    Ok(None)
}

fn entry_fault(alloc: Global, index: usize, entry: &Value) -> Result<Option<String>, AllocError> {
    if !entry.is_object() {
        return Ok(Some(format!(in alloc; "file_sd_configs[{index}]: no object")?));
    }
    if !is_time(entry.get("refresh_interval")) {
        return Ok(Some(format!(in alloc;
            "file_sd_configs[{index}].refresh_interval: no duration above 0, as 15s or 1m30s is"
        )?));
    }
    match entry.get("files") {
        None => Ok(Some(format!(in alloc; "file_sd_configs[{index}].files: it is missing")?)),
        Some(Value::Array(paths)) => paths_fault(alloc, index, paths.as_slice()),
        Some(_) => Ok(Some(format!(in alloc; "file_sd_configs[{index}].files: no list")?)),
    }
}

fn paths_fault(alloc: Global, index: usize, paths: &[Value]) -> Result<Option<String>, AllocError> {
    if paths.is_empty() {
        return Ok(Some(format!(in alloc; "file_sd_configs[{index}].files: no path")?));
    }
    for (place, path) in paths.iter().enumerate() {
        if let Some(why) = path_fault(alloc, index, place, path)? {
            return Ok(Some(why));
        }
    }
    Ok(None)
}

fn path_fault(
    alloc: Global,
    index: usize,
    place: usize,
    path: &Value,
) -> Result<Option<String>, AllocError> {
    let Some(path) = path.as_str() else {
        return Ok(Some(format!(in alloc; "file_sd_configs[{index}].files[{place}]: no text")?));
    };
    match pattern_fault(path) {
        Some(why) => {
            let path = Quoted(path);
            Ok(Some(format!(in alloc; "file_sd_configs[{index}].files[{place}]: {path}: {why}")?))
        }
        None => Ok(None),
    }
}

/// Whether a member is a duration above 0, or left out.
fn is_time(found: Option<&Value>) -> bool {
    match found {
        Some(value) => says_time(value),
        None => true,
    }
}

fn says_time(value: &Value) -> bool {
    let Some(text) = value.as_str() else {
        return false;
    };
    match duration_of(text) {
        Some(time) => time > 0,
        None => false,
    }
}
