//! What Prometheus says of its scrapes: the answers of its HTTP API (`/api/v1/query`) to `up`, `scrape_samples_scraped` and `scrape_duration_seconds`,
//! each as a range vector, whose points are those that it stored.

use crate::error::{DocumentError, Part};
use crate::numbers::small_in;
use crate::series::series_of_metric;
use agent_core::{Point, Said, Series};
use indexmap::IndexMap;
use json_values::parse;
use lists::{List, Plain};
use scrape_books::Outcome;
use serde_json::Value;
use std::alloc::{AllocError, Global};
use std::time::Duration;

/// A range vector: of each series its points, a time in milliseconds and a whole number each.
type Rows = IndexMap<Series, List<(u64, u64)>>;

/// How long the scrapes of each series lasted: of each when it began, in milliseconds, and how long it lasted, in nanoseconds.
pub type Durations = Rows;

/// What the values of a range vector are.
#[derive(Clone, Copy)]
enum Values {
    /// Whole numbers of at most 32 bits.
    Whole,
    Seconds,
}

/// How long the scrapes of each series lasted.
pub fn read_durations(alloc: Global, bytes: &[u8]) -> Result<Durations, DocumentError> {
    read_rows(alloc, Values::Seconds, bytes)
}

/// What Prometheus said of each series: the scrapes that failed, and those of which it said too how many samples they had.
pub fn read_said(alloc: Global, up: &[u8], samples: &[u8]) -> Result<Said, DocumentError> {
    let ups = read_rows(alloc, Values::Whole, up)?;
    let counts = read_rows(alloc, Values::Whole, samples)?;
    let mut said = IndexMap::new(alloc);
    for (series, points) in ups.iter() {
        let scrapes = scrapes_of(alloc, points.as_slice(), counts.get(series))?;
        said.insert(series.copy()?, scrapes)?;
    }
    Ok(said)
}

/// The scrapes of a series, of its points in both answers.
fn scrapes_of(
    alloc: Global,
    ups: &[(u64, u64)],
    counts: Option<&List<(u64, u64)>>,
) -> Result<List<Point>, AllocError> {
    let mut scrapes = List::new(alloc);
    for (time, up) in ups {
        if let Some(outcome) = outcome_of(*up, count_at(counts, *time)) {
            scrapes.push(Point {
                time: *time,
                outcome,
            })?;
        }
    }
    Ok(scrapes)
}

/// What a scrape came to, if that is known.
fn outcome_of(up: u64, samples: Option<u64>) -> Option<Outcome> {
    if up == 0 {
        return Some(Outcome::Down);
    }
    let samples = u32::try_from(samples?).ok()?;
    Some(Outcome::Up(samples))
}

/// The number at a time.
fn count_at(counts: Option<&List<(u64, u64)>>, time: u64) -> Option<u64> {
    let point = counts?
        .as_slice()
        .iter()
        .copied()
        .find(|point| point.0 == time)?;
    Some(point.1)
}

fn read_rows(alloc: Global, values: Values, bytes: &[u8]) -> Result<Rows, DocumentError> {
    let Some(value) = parse(alloc, bytes)? else {
        return Err(DocumentError::NotJson);
    };
    match matrix_in(&value) {
        Some(rows) => rows_in(alloc, values, rows),
        None => Err(DocumentError::Shape(Part::Answer)),
    }
}

/// The series of a success that is a range vector.
fn matrix_in(value: &Value) -> Option<&[Value]> {
    if value.get("status")?.as_str()? != "success" {
        return None;
    }
    let data = value.get("data")?;
    if data.get("resultType")?.as_str()? != "matrix" {
        return None;
    }
    Some(data.get("result")?.as_array()?.as_slice())
}

fn rows_in(alloc: Global, values: Values, series: &[Value]) -> Result<Rows, DocumentError> {
    let mut rows = IndexMap::new(alloc);
    for value in series {
        add_row(alloc, values, &mut rows, value)?;
    }
    Ok(rows)
}

/// Adds a series. One whose labels a target of the allocator's cannot have is left out.
fn add_row(
    alloc: Global,
    values: Values,
    rows: &mut Rows,
    value: &Value,
) -> Result<(), DocumentError> {
    let Some((metric, points)) = parts_in(value) else {
        return Err(DocumentError::Shape(Part::Values));
    };
    match series_of_metric(alloc, metric) {
        Ok(series) => {
            let points = points_in(alloc, values, points)?;
            rows.insert(series, points)?;
            Ok(())
        }
        Err(DocumentError::Memory) => Err(DocumentError::Memory),
        Err(DocumentError::NotJson) | Err(DocumentError::Shape(_)) => Ok(()),
    }
}

fn parts_in(value: &Value) -> Option<(&Value, &[Value])> {
    let metric = value.get("metric")?;
    let points = value.get("values")?.as_array()?;
    Some((metric, points.as_slice()))
}

/// The points whose values are what they are to be.
fn points_in(
    alloc: Global,
    values: Values,
    pairs: &[Value],
) -> Result<List<(u64, u64)>, AllocError> {
    let mut points = List::new(alloc);
    for pair in pairs {
        if let Some(point) = point_in(values, pair) {
            points.push(point)?;
        }
    }
    Ok(points)
}

fn point_in(values: Values, pair: &Value) -> Option<(u64, u64)> {
    match pair.as_array()?.as_slice() {
        [time, text] => Some((
            milliseconds(time.as_f64()?)?,
            value_in(values, text.as_str()?)?,
        )),
        _ => None,
    }
}

fn value_in(values: Values, text: &str) -> Option<u64> {
    match values {
        Values::Whole => Some(u64::from(small_in(text)?)),
        Values::Seconds => nanoseconds(text.parse().ok()?),
    }
}

/// A duration in nanoseconds, to the nearest one.
pub fn nanoseconds(seconds: f64) -> Option<u64> {
    let nanos = Duration::try_from_secs_f64(seconds).ok()?.as_nanos();
    u64::try_from(nanos).ok()
}

/// A time in milliseconds, to the nearest one.
fn milliseconds(seconds: f64) -> Option<u64> {
    Some(nanoseconds(seconds)?.saturating_add(500_000) / 1_000_000)
}
