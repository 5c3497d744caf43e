//! When the last scrapes began of the targets that Prometheus scrapes, and where those are scraped.
ghost use Rattle.std.specs.Prelude.{◌≡◌};
ghost use Rattle.std.specs.List.{list_any};
ghost use Rattle.agent_core.specs.declared.target.Listed.{Listed};

use crate::active::targets_in;
use crate::url::url_in;
use agent_core::{LastScrape, Lasts, Listed, SPAN, Series};
use agent_documents::{DocumentError, Durations, Part, nanoseconds, series_of_metric};
use indexmap::{IndexMap, IndexSet};
use jiff::Timestamp;
use json_values::parse;
use lists::{List, Plain, Text};
use serde_json::Value;
use std::alloc::{AllocError, Global};

/// Whether one of the targets shares its series.
pub fn has_shared(targets: &[Listed]) -> bool
    ensures { result ≡ list_any (λ (listed : Listed). listed.shared) targets.now }
{
    targets.iter().any(|listed| listed.shared)
}

/// What tells whose a last scrape is: the names of the jobs, in order of their indices, and how long those scrapes lasted that are stored.
#[derive(Clone, Copy)]
pub struct Known<'a> {
    pub jobs: &'a [Text],
    pub durations: &'a Durations,
}

/// Reads of each series that targets share the last scrapes of all that have it.
pub fn read_lasts(
    alloc: Global,
    known: Known<'_>,
    targets: &[Listed],
    bytes: &[u8],
) -> Result<Lasts, DocumentError> {
    match parse(alloc, bytes)? {
        Some(value) => match targets_in(&value) {
            Some(active) => lasts_of(alloc, known, targets, active),
            None => Err(DocumentError::Shape(Part::Answer)),
        },
        None => Err(DocumentError::NotJson),
    }
}

fn lasts_of(
    alloc: Global,
    known: Known<'_>,
    targets: &[Listed],
    active: &[Value],
) -> Result<Lasts, DocumentError> {
    let shared = shared_in(alloc, targets)?;
    let mut lasts = IndexMap::new(alloc);
    for value in active {
        add_active(alloc, known, &shared, &mut lasts, value)?;
    }
    Ok(lasts)
}

/// The series that targets share.
fn shared_in(alloc: Global, targets: &[Listed]) -> Result<IndexSet<Series>, AllocError> {
    let mut shared = IndexSet::new(alloc);
    for listed in targets {
        add_shared(&mut shared, listed)?;
    }
    Ok(shared)
}

fn add_shared(shared: &mut IndexSet<Series>, listed: &Listed) -> Result<(), AllocError> {
    if listed.shared {
        shared.insert(listed.series.copy()?)?;
    }
    Ok(())
}

/// Adds the last scrape of a target, where it has a series that is shared.
fn add_active(
    alloc: Global,
    known: Known<'_>,
    shared: &IndexSet<Series>,
    lasts: &mut Lasts,
    value: &Value,
) -> Result<(), DocumentError> {
    let Some(labels) = value.get("labels") else {
        return Err(DocumentError::Shape(Part::Metric));
    };
    match series_of_metric(alloc, labels) {
        Ok(series) if shared.contains(&series) => add_last(alloc, known, lasts, series, value),
        Ok(_) => Ok(()),
        Err(DocumentError::Memory) => Err(DocumentError::Memory),
        Err(DocumentError::NotJson) | Err(DocumentError::Shape(_)) => Ok(()),
    }
}

/// Adds the last scrape of a target behind those of its series.
fn add_last(
    alloc: Global,
    known: Known<'_>,
    lasts: &mut Lasts,
    series: Series,
    value: &Value,
) -> Result<(), DocumentError> {
    let last = last_in(alloc, known, &series, value)?;
    let mut all = lasts.swap_remove(&series).unwrap_or(List::new(alloc));
    all.push(last)?;
    lasts.insert(series, all)?;
    Ok(())
}

fn last_in(
    alloc: Global,
    known: Known<'_>,
    series: &Series,
    value: &Value,
) -> Result<LastScrape, DocumentError> {
    match parts_in(value) {
        Some(parts) => Ok(LastScrape {
            job: job_of(known, series, parts),
            url: url_in(alloc, parts.url)?,
            time: parts.began,
        }),
        None => Err(DocumentError::Shape(Part::Answer)),
    }
}

/// What Prometheus says of a target's last scrape.
#[derive(Clone, Copy)]
struct Parts<'a> {
    pool: &'a str,
    url: &'a str,
    /// When it began, in milliseconds.
    began: u64,
    /// How long it lasted, in nanoseconds.
    lasted: u64,
}

fn parts_in(value: &Value) -> Option<Parts<'_>> {
    Some(Parts {
        pool: value.get("scrapePool")?.as_str()?,
        url: value.get("scrapeUrl")?.as_str()?,
        began: milliseconds(value.get("lastScrape")?.as_str()?)?,
        lasted: nanoseconds(value.get("lastScrapeDuration")?.as_f64()?)?,
    })
}

/// The index of the job of a last scrape, where that is stored: it is nobody's otherwise.
fn job_of(known: Known<'_>, series: &Series, parts: Parts<'_>) -> Option<u32> {
    let stored = known.durations.get(series)?;
    if is_stored(stored.as_slice(), parts) {
        job_named(known.jobs, parts.pool)
    } else {
        None
    }
}

/// Whether a scrape is stored that began then and lasted just as long: Prometheus stores the very duration that it tells.
fn is_stored(stored: &[(u64, u64)], parts: Parts<'_>) -> bool {
    stored.iter().any(|scrape| scrape.0.abs_diff(parts.began) <= SPAN && scrape.1 == parts.lasted)
}

/// The index of the job of a name.
fn job_named(jobs: &[Text], name: &str) -> Option<u32> {
    let place = jobs.iter().position(|job| job.as_str() == name)?;
    u32::try_from(place).ok()
}

/// A time (RFC 3339) in whole milliseconds. It is 0 where it is before 1970: Prometheus says so of a target that was never scraped.
fn milliseconds(text: &str) -> Option<u64> {
    let time: Timestamp = text.parse().ok()?;
    Some(u64::try_from(time.as_millisecond()).unwrap_or(0))
}
