//! Targets of a run, and the last scrapes of those that share a series: SERIES@JOB/URL?NAME=VALUE, with `-` in place of the job where it is none that
//! is known.
use agent_core::{LastScrape, Lasts, Listed, Parameter, Series, Url};
use indexmap::IndexMap;
use lists::{List, Text};
use std::alloc::{AllocError, Global};

/// A target: NUMBER=SERIES, or NUMBER=SERIES@JOB/URL where it shares that.
pub(crate) fn listed_in(alloc: Global, word: &str) -> Result<Listed, AllocError> {
    let (number, group) = word.split_once('=').unwrap_or((word, ""));
    let (series, place) = group.split_once('@').unwrap_or((group, ""));
    let (job, url) = place.split_once('/').unwrap_or((place, ""));
    let is_shared = is_last(group);
    Ok(Listed {
        job: job.parse().unwrap_or(0),
        group: Text::from_str(alloc, group)?,
        target: number.parse().unwrap_or(0),
        series: Series {
            labels: Text::from_str(alloc, series)?,
        },
        alone: !is_shared,
        shared: is_shared,
        url: url_in(alloc, url)?,
    })
}

/// Whether a word is a last scrape.
pub(crate) fn is_last(word: &str) -> bool {
    word.split_once('@').is_some()
}

/// The last scrapes among words.
pub(crate) fn lasts_in(alloc: Global, text: &str) -> Result<Lasts, AllocError> {
    let mut lasts = IndexMap::new(alloc);
    for word in text.split(' ') {
        if is_last(word) {
            add_last(alloc, &mut lasts, word)?;
        }
    }
    Ok(lasts)
}

/// Adds a last scrape behind those of its series.
fn add_last(alloc: Global, lasts: &mut Lasts, word: &str) -> Result<(), AllocError> {
    let (series, last) = word.split_once('@').unwrap_or((word, ""));
    let labels = Text::from_str(alloc, series)?;
    let series = Series { labels };
    let mut all = lasts.swap_remove(&series).unwrap_or(List::new(alloc));
    all.push(last_in(alloc, last)?)?;
    lasts.insert(series, all)?;
    Ok(())
}

fn last_in(alloc: Global, text: &str) -> Result<LastScrape, AllocError> {
    let (place, time) = text.split_once(':').unwrap_or((text, ""));
    let (job, url) = place.split_once('/').unwrap_or((place, ""));
    Ok(LastScrape {
        job: job.parse().ok(),
        url: url_in(alloc, url)?,
        time: time.parse().unwrap_or(0),
    })
}

fn url_in(alloc: Global, text: &str) -> Result<Url, AllocError> {
    let (base, query) = text.split_once('?').unwrap_or((text, ""));
    let base = Text::from_str(alloc, base)?;
    let parameters = parameters_in(alloc, query)?;
    Ok(Url { base, parameters })
}

fn parameters_in(alloc: Global, query: &str) -> Result<List<Parameter>, AllocError> {
    let mut parameters = List::new(alloc);
    for pair in query.split('&') {
        let (name, value) = pair.split_once('=').unwrap_or((pair, ""));
        if name != "" {
            parameters.push(parameter_of(alloc, name, value)?)?;
        }
    }
    Ok(parameters)
}

fn parameter_of(alloc: Global, name: &str, value: &str) -> Result<Parameter, AllocError> {
    let name = Text::from_str(alloc, name)?;
    let value = Text::from_str(alloc, value)?;
    Ok(Parameter { name, value })
}
