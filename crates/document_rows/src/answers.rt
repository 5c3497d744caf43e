//! The readers by their names.
use crate::discovery::{discovery, first_labels, found};
use crate::documents::{certificate, config, config_jobs, groups, instance};
use crate::labels::{finished, label_name, label_steps};
use crate::limits::{limit_steps, limits, own_limits, same_limits};
use crate::pages::collectors_configs;
use crate::reach::{collector_name, reach, reaches};
use crate::rules::rules;
use crate::service::{address, arguments, duration, joins, settings};
use crate::values::{compact, pairs, texts};
use crate::words::{media, samples, url, written_groups};
use std::alloc::{AllocError, Global};
use std::str;

/// What stands where a reader reads.
pub(crate) const READ: &str = "read";

/// What the reader of a name says of the bytes. None where there is no such reader.
pub(crate) fn answer_to(
    alloc: Global,
    reader: &str,
    bytes: &[u8],
) -> Result<Option<String>, AllocError> {
    let answer = match reader {
        "certificate" => certificate(alloc, bytes),
        "config" => config(alloc, bytes),
        "config_jobs" => config_jobs(alloc, bytes),
        "discovery" => discovery(alloc, bytes),
        "groups" => groups(alloc, bytes),
        "instance" => instance(alloc, bytes),
        "rules" => rules(alloc, bytes),
        "samples" => samples(alloc, bytes),
        "settings" => settings(alloc, bytes),
        _ => return of_text(alloc, reader, bytes),
    };
    some(answer)
}

/// The same of the readers that are given texts.
fn of_text(alloc: Global, reader: &str, bytes: &[u8]) -> Result<Option<String>, AllocError> {
    match str::from_utf8(bytes) {
        Ok(text) => words_answer(alloc, reader, text),
        Err(_) => some(String::from_str(alloc, "no text")),
    }
}

fn words_answer(alloc: Global, reader: &str, text: &str) -> Result<Option<String>, AllocError> {
    let answer = match reader {
        "address" => address(alloc, text),
        "arguments" => arguments(alloc, text),
        "collector_name" => collector_name(alloc, text),
        "collectors_configs" => collectors_configs(alloc, text),
        "compact" => compact(alloc, text),
        "duration" => duration(alloc, text),
        "finished" => finished(alloc, text),
        "first_labels" => first_labels(alloc, text),
        "found" => found(alloc, text),
        "joins" => joins(alloc, text),
        "label_name" => label_name(alloc, text),
        "label_steps" => label_steps(alloc, text),
        "media" => media(alloc, text),
        "pairs" => pairs(alloc, text),
        "texts" => texts(alloc, text),
        "url" => url(alloc, text),
        "written_groups" => written_groups(alloc, text),
        _ => return reach_answer(alloc, reader, text),
    };
    some(answer)
}

fn reach_answer(alloc: Global, reader: &str, text: &str) -> Result<Option<String>, AllocError> {
    let answer = match reader {
        "limit_steps" => limit_steps(alloc, text),
        "limits" => limits(alloc, text),
        "own_limits" => own_limits(alloc, text),
        "reach" => reach(alloc, text),
        "reaches" => reaches(alloc, text),
        "same_limits" => same_limits(alloc, text),
        _ => return Ok(None),
    };
    some(answer)
}

fn some(answer: Result<String, AllocError>) -> Result<Option<String>, AllocError> {
    match answer {
        Ok(answer) => Ok(Some(answer)),
        Err(error) => Err(error),
    }
}
