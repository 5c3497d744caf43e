//! Names of collectors, and which targets they reach.
use crate::values::{NONE, json_in};
use json_values::{Spelled, parse};
use label_sets::{Finished, LabelError, Labels, Target, finish};
use reach_rules::{CollectorName, NameError, Reach, ReachError};
use serde_json::Value;
use std::alloc::{AllocError, Global};

/// A collector's name, written.
pub(crate) fn collector_name(alloc: Global, text: &str) -> Result<String, AllocError> {
    match CollectorName::read(alloc, text) {
        Ok(name) => {
            let value = name.write(alloc);
            drop(name);
            json_in(alloc, value)
        }
        Err(NameError::BadName) => String::from_str(alloc, "BadName"),
        Err(NameError::Memory) => Err(AllocError),
    }
}

/// Rules, written.
pub(crate) fn reach(alloc: Global, text: &str) -> Result<String, AllocError> {
    match parse(alloc, text.as_bytes())? {
        Some(value) => {
            let line = written(alloc, &value);
            drop(value);
            line
        }
        None => String::from_str(alloc, NONE),
    }
}

fn written(alloc: Global, value: &Value) -> Result<String, AllocError> {
    match Reach::read(alloc, value) {
        Ok(reach) => {
            let value = reach.write(alloc);
            drop(reach);
            json_in(alloc, value)
        }
        Err(error) => refused_by(alloc, error),
    }
}

/// Whether rules reach a target of zone x, and whether they reach one of no zone.
pub(crate) fn reaches(alloc: Global, text: &str) -> Result<String, AllocError> {
    match parse(alloc, text.as_bytes())? {
        Some(value) => {
            let line = reached_by(alloc, &value);
            drop(value);
            line
        }
        None => String::from_str(alloc, NONE),
    }
}

fn reached_by(alloc: Global, value: &Value) -> Result<String, AllocError> {
    match Reach::read(alloc, value) {
        Ok(reach) => {
            let line = both_zones(alloc, &reach);
            drop(reach);
            line
        }
        Err(error) => refused_by(alloc, error),
    }
}

fn both_zones(alloc: Global, reach: &Reach) -> Result<String, AllocError> {
    let (in_x, without) = (
        reaches_zone(alloc, reach, "x")?,
        reaches_zone(alloc, reach, "")?,
    );
    format!(in alloc; "{in_x} {without}")
}

fn reaches_zone(alloc: Global, reach: &Reach, zone: &str) -> Result<bool, AllocError> {
    match target_in(alloc, zone) {
        Ok(Some(target)) => {
            let reaches = reach.reaches(&target);
            drop(target);
            Ok(reaches)
        }
        Ok(None) => Ok(false),
        Err(_) => Err(AllocError),
    }
}

/// A target of the zone.
fn target_in(alloc: Global, zone: &str) -> Result<Option<Target>, LabelError> {
    let mut labels = Labels::new(alloc);
    let target = target_with(alloc, &mut labels, zone);
    drop(labels);
    target
}

fn target_with(
    alloc: Global,
    labels: &mut Labels,
    zone: &str,
) -> Result<Option<Target>, LabelError> {
    labels.set("__address__", "h:1")?;
    labels.set("zone", zone)?;
    match finish(alloc, labels)? {
        Finished::Target(target) => Ok(Some(target)),
        Finished::NoAddress => Ok(None),
    }
}

pub(crate) fn refused_by(alloc: Global, error: ReachError) -> Result<String, AllocError> {
    match error {
        ReachError::Memory => Err(AllocError),
        error => format!(in alloc; "{error:?}"),
    }
}
