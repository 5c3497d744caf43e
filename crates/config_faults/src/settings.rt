//! What is wrong with the settings.
use crate::collectors::{Joining, limits_fault, name_fault, pattern_fault};
use crate::job::is_duration;
use crate::lines::Lines;
use crate::reach::reach_fault;
use etcd_settings::read_members;
use serde_json::Value;
use service_settings::{Member, SettingsError, read_settings};
use std::alloc::{AllocError, Global};

/// The members of `global` that are durations, beside the one that is read.
const DURATIONS: [&str; 2] = ["evaluation_interval", "scrape_timeout"];

/// Tells the first thing that is wrong with the settings of a document.
pub(crate) fn tell_settings(
    alloc: Global,
    lines: &mut Lines<'_>,
    document: &[u8],
    value: &Value,
) -> Result<(), AllocError> {
    match read_settings(alloc, document) {
        Ok(settings) => {
            drop(settings);
            tell_etcd(alloc, lines, document)?;
            tell_durations(alloc, lines, value)
        }
        Err(SettingsError::Memory) => Err(AllocError),
        Err(error) => tell_error(alloc, lines, value, &error),
    }
}

/// Tells the first thing that is wrong with what is said of a journal in etcd.
fn tell_etcd(alloc: Global, lines: &mut Lines<'_>, document: &[u8]) -> Result<(), AllocError> {
    match read_members(alloc, document) {
        Ok(members) => {
            drop(members);
            Ok(())
        }
        Err(etcd_settings::SettingsError::Memory) => Err(AllocError),
        Err(error) => {
            let (path, missing) = (error.path(), error.missing());
            let line = format!(in alloc; "{path}: {missing}")?;
            lines.tell(line.as_str())
        }
    }
}

fn tell_durations(alloc: Global, lines: &mut Lines<'_>, value: &Value) -> Result<(), AllocError> {
    for name in DURATIONS.as_slice() {
        if !is_duration(value.get("global").and_then(|global| global.get(*name))) {
            let line = format!(in alloc; "global.{name}: no duration, as 15s or 1m30s is")?;
            lines.tell(line.as_str())?;
        }
    }
    Ok(())
}

fn tell_error(
    alloc: Global,
    lines: &mut Lines<'_>,
    value: &Value,
    error: &SettingsError,
) -> Result<(), AllocError> {
    // What is wrong with the list of jobs was told with them.
    if let SettingsError::Shape(
        Member::ScrapeConfigs
        | Member::ScrapeConfig(_)
        | Member::HttpSdConfigs(_)
        | Member::HttpSdConfig(_, _),
    ) = error
    {
        return Ok(());
    }
    let line = error_line(alloc, value, error)?;
    lines.tell(line.as_str())
}

/// The line of a fault, with what would be right.
fn error_line(alloc: Global, value: &Value, error: &SettingsError) -> Result<String, AllocError> {
    let line = error.line(alloc)?;
    match error {
        SettingsError::Shape(member) => right_line(alloc, value, line.as_str(), *member),
        _ => Ok(line),
    }
}

fn right_line(
    alloc: Global,
    value: &Value,
    line: &str,
    member: Member,
) -> Result<String, AllocError> {
    match member {
        Member::ScrapeInterval
        | Member::RefreshInterval(_, _)
        | Member::CollectorTimeout
        | Member::FetchTimeout
        | Member::Settle => format!(in alloc; "{line}, as 15s or 1m30s is"),
        Member::Listen => format!(in alloc; "{line}, as 127.0.0.1:8080 is"),
        Member::Acknowledge => format!(in alloc; "{line}, as 10.0.0.5:8080 is"),
        Member::CollectorName(index) => name_fault(alloc, value, line, index),
        Member::Pattern(index) => pattern_fault(alloc, value, line, index),
        _ => joining_line(alloc, value, line, member),
    }
}

/// The same of what collectors join with.
fn joining_line(
    alloc: Global,
    value: &Value,
    line: &str,
    member: Member,
) -> Result<String, AllocError> {
    let (collectors, patterns) = (Joining::Collectors, Joining::Patterns);
    match member {
        Member::CollectorReach(index) => reach_fault(alloc, value, line, collectors.entry(index)),
        Member::CollectorLimits(index) => limits_fault(alloc, value, line, collectors.entry(index)),
        Member::PatternReach(index) => reach_fault(alloc, value, line, patterns.entry(index)),
        Member::PatternLimits(index) => limits_fault(alloc, value, line, patterns.entry(index)),
        _ => String::from_str(alloc, line),
    }
}
