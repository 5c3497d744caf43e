//! What sources list: the first labels of targets, and the targets that rules leave.
ghost use Rattle.std.specs.Prelude.{◌≤◌, length};

use crate::answers::READ;
use crate::documents::refused_by;
use crate::rules::rules_of;
use crate::values::NONE;
use http_get::{Reply, found as found_in};
use json_values::parse;
use lists::{List, Text};
use relabel::{Found, Rules};
use sd_documents::{Config, Group, Job, first_labels as first_labels_of, read_config, read_groups};
use serde_json::Value;
use std::alloc::{AllocError, Global};
use std::str;

/// A job with parameters, and with a source.
const ASKING: &[u8] =
    br#"{"scrape_configs":[{"job_name":"j","params":{"m":["p","q"],"match[]":["z"],"n":[]},"http_sd_configs":[{"url":"http://127.0.0.1:9/sd"}]}]}"#;

/// The configuration of that job.
fn asking(alloc: Global) -> Result<Config, AllocError> {
    match read_config(alloc, ASKING) {
        Ok(config) => Ok(config),
        Err(_) => Err(AllocError),
    }
}

/// What a source answers, the media type on a line and the body behind that: whether it is a list.
pub(crate) fn discovery(alloc: Global, bytes: &[u8]) -> Result<String, AllocError> {
    let (line, body) = first_line(bytes);
    match reply_of(alloc, line, body) {
        Ok(reply) => {
            let line = listed(alloc, &reply);
            drop(reply);
            line
        }
        Err(error) => Err(error),
    }
}

fn reply_of(alloc: Global, media: &str, body: &[u8]) -> Result<Reply, AllocError> {
    match Text::from_str(alloc, media) {
        Ok(media) => Ok(Reply {
            status: 200,
            media,
            body: List::from_vec(Vec::from_slice(alloc, body)?),
        }),
        Err(error) => Err(error),
    }
}

fn listed(alloc: Global, reply: &Reply) -> Result<String, AllocError> {
    match asking(alloc) {
        Ok(config) => {
            let line = listed_in(alloc, &config, reply);
            drop(config);
            line
        }
        Err(error) => Err(error),
    }
}

fn listed_in(alloc: Global, config: &Config, reply: &Reply) -> Result<String, AllocError> {
    match config.jobs.as_slice().first() {
        Some(job) => listed_by(alloc, job, reply),
        None => Err(AllocError),
    }
}

fn listed_by(alloc: Global, job: &Job, reply: &Reply) -> Result<String, AllocError> {
    match Rules::read(alloc, &[]) {
        Ok(rules) => {
            let line = listed_under(alloc, job, &rules, reply);
            drop(rules);
            line
        }
        Err(_) => Err(AllocError),
    }
}

fn listed_under(
    alloc: Global,
    job: &Job,
    rules: &Rules,
    reply: &Reply,
) -> Result<String, AllocError> {
    match found_in(alloc, job, rules, 0, reply) {
        Ok(found) => {
            drop(found);
            String::from_str(alloc, READ)
        }
        Err(error) => String::from_str(alloc, error.name()),
    }
}

/// The first line, empty where it is no text, and what follows it.
fn first_line(bytes: &[u8]) -> (&str, &[u8]) {
    let end = bytes
        .iter()
        .position(|byte| *byte == b'\n')
        .unwrap_or(bytes.len());
    let line = str::from_utf8(&bytes[..end]).unwrap_or("");
    (line, bytes.get(end + 1..).unwrap_or(&[]))
}

/// A source, and groups behind that: the first labels of the target `h:1` in the first group.
pub(crate) fn first_labels(alloc: Global, text: &str) -> Result<String, AllocError> {
    let (source, groups) = text.split_once(' ').unwrap_or((text, ""));
    match read_groups(alloc, groups.as_bytes()) {
        Ok(groups) => {
            let line = labels_by(alloc, source.parse().unwrap_or(0), groups.as_slice());
            drop(groups);
            line
        }
        Err(error) => refused_by(alloc, &error),
    }
}

fn labels_by(alloc: Global, source: u32, groups: &[Group]) -> Result<String, AllocError> {
    match asking(alloc) {
        Ok(config) => {
            let line = labels_in(alloc, source, &config, groups.first());
            drop(config);
            line
        }
        Err(error) => Err(error),
    }
}

fn labels_in(
    alloc: Global,
    source: u32,
    config: &Config,
    group: Option<&Group>,
) -> Result<String, AllocError> {
    match (config.jobs.as_slice().first(), group) {
        (Some(job), Some(group)) if source as usize <= job.http_urls.len() => {
            labels_of(alloc, source, job, group)
        }
        _ => String::from_str(alloc, NONE),
    }
}

fn labels_of(alloc: Global, source: u32, job: &Job, group: &Group) -> Result<String, AllocError>
    requires { source ≤ length job.now.http_urls }
{
    match first_labels_of(alloc, job, group, "h:1", source) {
        Ok(labels) => {
            let json = labels.to_json();
            drop(labels);
            Ok(json?.into_string())
        }
        Err(error) => Err(error),
    }
}

/// Rules, and groups of the source behind that: how many targets are found, dropped and without an address, and the targets.
pub(crate) fn found(alloc: Global, text: &str) -> Result<String, AllocError> {
    let (rules, groups) = text.split_once(' ').unwrap_or((text, ""));
    match parse(alloc, rules.as_bytes())? {
        Some(Value::Array(values)) => {
            let line = found_by(alloc, values.as_slice(), groups);
            drop(values);
            line
        }
        other => {
            drop(other);
            String::from_str(alloc, NONE)
        }
    }
}

fn found_by(alloc: Global, values: &[Value], groups: &str) -> Result<String, AllocError> {
    match rules_of(alloc, values)? {
        Ok(rules) => {
            let line = found_of(alloc, &rules, groups);
            drop(rules);
            line
        }
        Err(error) => format!(in alloc; "{error}"),
    }
}

fn found_of(alloc: Global, rules: &Rules, groups: &str) -> Result<String, AllocError> {
    match read_groups(alloc, groups.as_bytes()) {
        Ok(groups) => {
            let line = found_among(alloc, rules, groups.as_slice());
            drop(groups);
            line
        }
        Err(error) => refused_by(alloc, &error),
    }
}

fn found_among(alloc: Global, rules: &Rules, groups: &[Group]) -> Result<String, AllocError> {
    match asking(alloc) {
        Ok(config) => {
            let line = found_under(alloc, rules, &config, groups);
            drop(config);
            line
        }
        Err(error) => Err(error),
    }
}

fn found_under(
    alloc: Global,
    rules: &Rules,
    config: &Config,
    groups: &[Group],
) -> Result<String, AllocError> {
    match config.jobs.as_slice().first() {
        Some(job) => discovered(alloc, rules, job, groups),
        None => String::from_str(alloc, NONE),
    }
}

fn discovered(
    alloc: Global,
    rules: &Rules,
    job: &Job,
    groups: &[Group],
) -> Result<String, AllocError> {
    if job.http_urls.is_empty() {
        return String::from_str(alloc, NONE);
    }
    match rules.discover(alloc, job, 1, groups) {
        Ok(found) => {
            let line = shown(alloc, &found);
            drop(found);
            line
        }
        Err(error) => Err(error),
    }
}

fn shown(alloc: Global, found: &Found) -> Result<String, AllocError> {
    let targets = found.targets.as_slice();
    let mut text = format!(in alloc; "{} {} {}", targets.len(), found.dropped, found.no_address)?;
    for target in targets {
        text.push_str(" ")?;
        text.push_str(target.text())?;
    }
    Ok(text)
}
