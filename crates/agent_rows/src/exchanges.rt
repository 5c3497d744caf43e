//! What is made of settings, of what is asked, and of what is answered.
use crate::shared::listed_in;
use agent_core::{Head, Listed, Report, Series};
use agent_documents::DocumentError;
use agent_exchanges::{
    Heads, JobLink, Saying, list_path, range_path, read_active, read_jobs, read_posted,
    reports_text, saying_of,
};
use agent_settings::{Settings, SettingsError, join_text, read_settings};
use agent_turns::lets_go;
use lists::Text;
use scrape_books::Outcome;
use std::alloc::{AllocError, Global};

/// The settings of an agent.
pub(crate) fn settings(alloc: Global, text: &str) -> Result<String, AllocError> {
    match read_settings(alloc, text.as_bytes()) {
        Ok(settings) => settings_text(alloc, &settings),
        Err(error) => refused(alloc, &error),
    }
}

fn settings_text(alloc: Global, settings: &Settings) -> Result<String, AllocError> {
    let (name, state) = (settings.name.as_str(), settings.state.as_str());
    let (allocator, prometheus) = (settings.allocator.as_str(), settings.prometheus.as_str());
    let port = settings.listen.port;
    let lease = settings.lease.unwrap_or(0);
    let tokens = &settings.tokens;
    let (one, two) = (shown(&tokens.allocator), shown(&tokens.admin));
    let three = shown(&tokens.prometheus);
    format!(in alloc; "{name} {allocator} {prometheus} {port} {state} {lease} {one} {two} {three}")
}

fn shown(text: &Option<Text>) -> &str {
    match text {
        Some(text) => text.as_str(),
        None => "-",
    }
}

fn refused(alloc: Global, error: &SettingsError) -> Result<String, AllocError> {
    match error {
        SettingsError::Memory => Err(AllocError),
        other => other.line(alloc),
    }
}

/// The body with which the collector `a` joins.
pub(crate) fn join(alloc: Global, text: &str) -> Result<String, AllocError> {
    match join_text(alloc, "a", text.as_bytes()) {
        Ok(Some(body)) => Ok(body.into_string()),
        Ok(None) => String::from_str(alloc, "no join"),
        Err(error) => refused(alloc, &error),
    }
}

/// An answer to a list that was asked for at 1000, in words: its status, the headers, each `-` where there is none, and the body.
pub(crate) fn saying(alloc: Global, text: &str) -> Result<String, AllocError> {
    let mut words = text.splitn(8, ' ');
    let status = words.next().unwrap_or("").parse().unwrap_or(0);
    let heads = Heads {
        collector: header(words.next()),
        epoch: header(words.next()),
        number: header(words.next()),
        round: header(words.next()),
        age: header(words.next()),
        length: header(words.next()),
    };
    let body = words.next().unwrap_or("").as_bytes();
    saying_text(alloc, saying_of(1000, status, heads, body))
}

fn header(word: Option<&str>) -> &str {
    match word {
        Some("-") | None => "",
        Some(text) => text,
    }
}

fn saying_text(alloc: Global, saying: Saying) -> Result<String, AllocError> {
    match saying {
        Saying::List(head, until) => {
            let (collector, epoch) = (head.collector, head.epoch);
            let (number, round) = (head.number, head.round);
            format!(in alloc; "{collector} {epoch} {number} {round} until {until}")
        }
        Saying::Gone => String::from_str(alloc, "gone"),
        Saying::Unknown => String::from_str(alloc, "unknown"),
        Saying::Other => String::from_str(alloc, "of no use"),
    }
}

/// The status and the body of an answer to reports.
pub(crate) fn posted(alloc: Global, text: &str) -> Result<String, AllocError> {
    let (status, body) = text.split_once(' ').unwrap_or((text, ""));
    let posted = read_posted(alloc, status.parse().unwrap_or(0), body.as_bytes())?;
    format!(in alloc; "{posted:?}")
}

/// A base, a link and a name: where a list is taken, and where it is only shown.
pub(crate) fn paths(alloc: Global, text: &str) -> Result<String, AllocError> {
    let mut words = text.splitn(3, ' ');
    let base = header(words.next());
    let link = header(words.next());
    let name = header(words.next());
    let takes = list_path(alloc, base, link, name, true)?;
    let shows = list_path(alloc, base, link, name, false)?;
    format!(in alloc; "{} {}", takes.as_str(), shows.as_str())
}

/// A metric: where its points of the last second are asked for.
pub(crate) fn range(alloc: Global, text: &str) -> Result<String, AllocError> {
    Ok(range_path(alloc, "/p", text, 1000)?.into_string())
}

/// Reports of targets with their samples, or `down`.
pub(crate) fn reports(alloc: Global, text: &str) -> Result<String, AllocError> {
    let mut all = Vec::new(alloc);
    for word in text.split(' ') {
        all.push(report_in(alloc, word)?)?;
    }
    Ok(reports_text(alloc, HEAD, all.as_slice())?.into_string())
}

const HEAD: Head = Head {
    collector: 2,
    epoch: 7,
    number: 4,
    round: 17,
};

fn report_in(alloc: Global, word: &str) -> Result<Report, AllocError> {
    let (target, samples) = word.split_once(':').unwrap_or((word, ""));
    Ok(Report {
        head: HEAD,
        target: target.parse().unwrap_or(0),
        series: series_of(alloc, "")?,
        time: 0,
        outcome: if samples == "down" {
            Outcome::Down
        } else {
            Outcome::Up(samples.parse().unwrap_or(0))
        },
    })
}

fn series_of(alloc: Global, labels: &str) -> Result<Series, AllocError> {
    let labels = Text::from_str(alloc, labels)?;
    Ok(Series { labels })
}

/// Which jobs there are.
pub(crate) fn jobs(alloc: Global, text: &str) -> Result<String, AllocError> {
    match read_jobs(alloc, text.as_bytes()) {
        Ok(links) => links_text(alloc, links.as_slice()),
        Err(error) => fault(alloc, error),
    }
}

fn links_text(alloc: Global, links: &[JobLink]) -> Result<String, AllocError> {
    let mut line = String::new(alloc);
    for link in links {
        line.push_str(link.job.as_str())?;
        line.push_str(" at ")?;
        line.push_str(link.link.as_str())?;
        line.push(';')?;
    }
    Ok(line)
}

/// What Prometheus scrapes.
pub(crate) fn active(alloc: Global, text: &str) -> Result<String, AllocError> {
    match read_active(alloc, text.as_bytes()) {
        Ok(series) => series_text(alloc, series.as_slice()),
        Err(error) => fault(alloc, error),
    }
}

fn series_text(alloc: Global, all: &[Series]) -> Result<String, AllocError> {
    let mut line = String::new(alloc);
    for series in all {
        line.push_str(series.labels.as_str())?;
        line.push(';')?;
    }
    Ok(line)
}

fn fault(alloc: Global, error: DocumentError) -> Result<String, AllocError> {
    match error {
        DocumentError::Memory => Err(AllocError),
        DocumentError::NotJson | DocumentError::Shape(_) => String::from_str(alloc, "refused"),
    }
}

/// Series of held targets, the places of those that are served, and the series that are scraped, with `|` between: whether all others are let go.
pub(crate) fn let_go(alloc: Global, text: &str) -> Result<String, AllocError> {
    let mut parts = text.splitn(3, '|');
    let held = held_in(alloc, parts.next().unwrap_or(""))?;
    let served = places_in(alloc, parts.next().unwrap_or(""))?;
    let scraped = scraped_in(alloc, parts.next().unwrap_or(""))?;
    let goes = lets_go(
        alloc,
        held.as_slice(),
        served.as_slice(),
        scraped.as_slice(),
    )?;
    String::from_str(alloc, if goes { "let go" } else { "not yet" })
}

/// Targets by their series.
fn held_in(alloc: Global, text: &str) -> Result<Vec<Listed>, AllocError> {
    let mut all = Vec::new(alloc);
    for word in text.split(' ') {
        all.push(held_as(alloc, word)?)?;
    }
    Ok(all)
}

fn held_as(alloc: Global, series: &str) -> Result<Listed, AllocError> {
    let word = format!(in alloc; "0={series}")?;
    listed_in(alloc, word.as_str())
}

fn places_in(alloc: Global, text: &str) -> Result<Vec<usize>, AllocError> {
    let mut all = Vec::new(alloc);
    for word in text.split(' ') {
        if let Ok(place) = word.parse() {
            all.push(place)?;
        }
    }
    Ok(all)
}

fn scraped_in(alloc: Global, text: &str) -> Result<Vec<Series>, AllocError> {
    let mut all = Vec::new(alloc);
    for word in text.split(' ') {
        all.push(series_of(alloc, word)?)?;
    }
    Ok(all)
}
