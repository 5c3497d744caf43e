//! What Prometheus scrapes.
use agent_core::Series;
use agent_documents::{DocumentError, Part, series_of_metric};
use json_values::parse;
use serde_json::Value;
use std::alloc::Global;

/// Reads the series of the targets that Prometheus scrapes. One whose labels a target of the allocator's cannot have is left out.
pub fn read_active(alloc: Global, bytes: &[u8]) -> Result<Vec<Series>, DocumentError> {
    match parse(alloc, bytes)? {
        Some(value) => match targets_in(&value) {
            Some(targets) => series_of(alloc, targets),
            None => Err(DocumentError::Shape(Part::Answer)),
        },
        None => Err(DocumentError::NotJson),
    }
}

/// The targets of a success.
pub(crate) fn targets_in(value: &Value) -> Option<&[Value]> {
    if value.get("status")?.as_str()? != "success" {
        return None;
    }
    let data = value.get("data")?;
    Some(data.get("activeTargets")?.as_array()?.as_slice())
}

fn series_of(alloc: Global, targets: &[Value]) -> Result<Vec<Series>, DocumentError> {
    let mut all = Vec::new(alloc);
    for target in targets {
        add_series(alloc, &mut all, target)?;
    }
    Ok(all)
}

fn add_series(alloc: Global, all: &mut Vec<Series>, target: &Value) -> Result<(), DocumentError> {
    let Some(labels) = target.get("labels") else {
        return Err(DocumentError::Shape(Part::Metric));
    };
    match series_of_metric(alloc, labels) {
        Ok(series) => {
            all.push(series)?;
            Ok(())
        }
        Err(DocumentError::Memory) => Err(DocumentError::Memory),
        Err(DocumentError::NotJson) | Err(DocumentError::Shape(_)) => Ok(()),
    }
}
