//! Members of a configuration that Prometheus has and the service does not follow.
use crate::left_out::tell_left_out;
use config_faults::not_followed;
use log::warn;
use logfmt::{Logfmt, Quoted};
use sd_documents::Job;
use std::alloc::{AllocError, Global};
use std::time::Clock;

/// How many of them are told one by one.
const MOST_TOLD: usize = 256;

/// What is told of a configuration that is valid: a line for each such member, and what its jobs leave out, before the line that says so.
pub fn told_valid(
    alloc: Global,
    path: &str,
    document: &[u8],
    jobs: &[Job],
) -> Result<String, AllocError> {
    let mut lines = String::new(alloc);
    tell_ways(alloc, &mut lines, path, document)?;
    tell_left_out(alloc, &mut lines, path, jobs)?;
    lines.push_str("the configuration is valid\n")?;
    Ok(lines)
}

fn tell_ways(
    alloc: Global,
    lines: &mut String,
    path: &str,
    document: &[u8],
) -> Result<(), AllocError> {
    let ways = not_followed(alloc, document)?;
    for way in ways.as_slice() {
        let way = way.as_str();
        let line = format!(in alloc; "{path}: {way}: not followed\n")?;
        lines.push_str(line.as_str())?;
    }
    Ok(())
}

/// A log line for each such member, of the first `MOST_TOLD`, and one for the others.
pub fn warn_of<R: Eprint + Clock + Copy>(
    rt: &R,
    alloc: Global,
    document: &[u8],
) -> Result<(), AllocError> {
    let ways = not_followed(alloc, document)?;
    let mut told: usize = 0;
    for way in ways.as_slice() {
        if told == MOST_TOLD {
            warn_of_others(rt, ways.len().saturating_sub(told));
            break;
        }
        warn_of_one(rt, way.as_str());
        told = told.saturating_add(1);
    }
    Ok(())
}

fn warn_of_one<R: Eprint + Clock + Copy>(rt: &R, way: &str) {
    let way = Quoted(way);
    warn!(Logfmt(*rt); member:% = way; "not followed: it is Prometheus's, and says nothing here");
}

fn warn_of_others<R: Eprint + Clock + Copy>(rt: &R, others: usize) {
    warn!(Logfmt(*rt); members:% = others; "not followed, and not told one by one");
}
