//! What is wrong with the shape of a job.
use crate::groups::groups_fault;
use crate::sources::sources_fault;
use sd_documents::{Member, SdError};
use serde_json::Value;
use std::alloc::{AllocError, Global};

/// What is wrong with a job that is not read.
pub(crate) fn shape_fault(
    alloc: Global,
    job: &Value,
    error: &SdError,
) -> Result<String, AllocError> {
    match error {
        SdError::Shape(_, member) => member_fault(alloc, job, *member),
        SdError::BadLabelName => groups_fault(alloc, job),
        SdError::UnsupportedDiscovery(_) => {
            format!(in alloc; "{error}; static_configs, http_sd_configs and file_sd_configs are")
        }
        _ => format!(in alloc; "{error}"),
    }
}

fn member_fault(alloc: Global, job: &Value, member: Member) -> Result<String, AllocError> {
    match member {
        Member::ScrapeConfigs | Member::Groups => String::from_str(alloc, "another shape"),
        Member::JobName => String::from_str(alloc, name_fault(job)),
        Member::Number => number_fault(alloc, job),
        Member::MetricsPath => String::from_str(alloc, "metrics_path: no text"),
        Member::Scheme => String::from_str(alloc, "scheme: no text"),
        Member::TargetLimit => String::from_str(alloc, "target_limit: no whole number of 32 bits"),
        Member::Params => params_fault(alloc, job),
        Member::StaticConfigs => groups_fault(alloc, job),
        Member::HttpSdConfigs => sources_fault(alloc, job),
        Member::RelabelConfigs => rules_list_fault(alloc, job),
    }
}

fn name_fault(job: &Value) -> &'static str {
    if !job.is_object() {
        return "no object";
    }
    match job.get("job_name") {
        None => "job_name: it is missing",
        Some(Value::String(_)) => "job_name: an empty text",
        Some(_) => "job_name: no text",
    }
}

/// The member that is a number with a fraction, an exponent or too many bits, where it stands in the job itself.
fn number_fault(alloc: Global, job: &Value) -> Result<String, AllocError> {
    let Some(members) = job.as_object() else {
        return String::from_str(alloc, "no object");
    };
    for (name, value) in members.iter() {
        if value.is_f64() {
            let name = name.as_str();
            return format!(in alloc; "{name}: no whole number of 64 bits");
        }
    }
    String::from_str(alloc, "a number in it is no whole number of 64 bits")
}

fn params_fault(alloc: Global, job: &Value) -> Result<String, AllocError> {
    let Some(members) = job.get("params").and_then(Value::as_object) else {
        return String::from_str(alloc, "params: no object");
    };
    for (name, value) in members.iter() {
        if !is_of_texts(value) {
            let name = name.as_str();
            return format!(in alloc; "params.{name}: no list of texts");
        }
    }
    String::from_str(alloc, "params: another shape")
}

/// Whether the value is a list of texts.
fn is_of_texts(value: &Value) -> bool {
    let Some(items) = value.as_array() else {
        return false;
    };
    for item in items {
        if !item.is_string() {
            return false;
        }
    }
    true
}

fn rules_list_fault(alloc: Global, job: &Value) -> Result<String, AllocError> {
    let Some(rules) = job.get("relabel_configs").and_then(Value::as_array) else {
        return String::from_str(alloc, "relabel_configs: no list");
    };
    for (index, rule) in rules.iter().enumerate() {
        if !rule.is_object() {
            return format!(in alloc; "relabel_configs[{index}]: no object");
        }
    }
    String::from_str(alloc, "relabel_configs: another shape")
}
