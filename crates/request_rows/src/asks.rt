//! What requests ask for.
use fleet_events::{CollectorId, Event};
use http::{Method, Uri};
use reach_rules::CollectorName;
use sd_routes::{
    Acknowledgement, Ask, Change, RequestError, Routes, Wanted, WhichCollector, event_of,
    misshapen_member, route,
};
use std::alloc::{AllocError, Global};
use std::str;

/// The epoch in which bodies are read. No float of 64 bits is this number.
const EPOCH: u64 = 9_007_199_254_740_993;

/// The number that stands for that of a collector which is named.
const NAMED: CollectorId = 0;

/// A request: its method, its target, and its body behind a blank or a line feed. Says what it asks for, with the event that the body spells, or
/// how it is refused, and at which member the body is not of the documented shape.
pub(crate) fn request(alloc: Global, bytes: &[u8]) -> Result<String, AllocError> {
    let (method, rest) = cut(bytes);
    let (target, body) = cut(rest);
    match Method::from_bytes(alloc, method) {
        Ok(method) => at_target(alloc, &method, str::from_utf8(target).unwrap_or(""), body),
        Err(_) => String::from_str(alloc, "no method"),
    }
}

/// What stands before the first blank or line feed, and what behind it.
fn cut(bytes: &[u8]) -> (&[u8], &[u8]) {
    let end = bytes
        .iter()
        .position(|byte| *byte == b' ' || *byte == b'\n')
        .unwrap_or(bytes.len());
    (&bytes[..end], bytes.get(end + 1..).unwrap_or(&[]))
}

fn at_target(
    alloc: Global,
    method: &Method,
    target: &str,
    body: &[u8],
) -> Result<String, AllocError> {
    match Uri::from_str(alloc, target) {
        Ok(target) => {
            let line = with_routes(alloc, method, &target, body);
            drop(target);
            line
        }
        Err(_) => String::from_str(alloc, "no target"),
    }
}

fn with_routes(
    alloc: Global,
    method: &Method,
    target: &Uri,
    body: &[u8],
) -> Result<String, AllocError> {
    match Routes::open(alloc) {
        Ok(routes) => {
            let line = by_routes(alloc, &routes, method, target, body);
            drop(routes);
            line
        }
        Err(error) => Err(error),
    }
}

fn by_routes(
    alloc: Global,
    routes: &Routes,
    method: &Method,
    target: &Uri,
    body: &[u8],
) -> Result<String, AllocError> {
    match route(routes, alloc, method, target) {
        Ok(ask) => {
            let line = told(alloc, &ask, body);
            drop(ask);
            line
        }
        Err(error) => refused(alloc, error),
    }
}

fn refused(alloc: Global, error: RequestError) -> Result<String, AllocError> {
    match error {
        RequestError::Memory => Err(AllocError),
        error => format!(in alloc; "{error:?}"),
    }
}

/// What is asked for, with what the body spells for it.
fn told(alloc: Global, ask: &Ask, body: &[u8]) -> Result<String, AllocError> {
    match event_of(alloc, ask, body, EPOCH) {
        Ok(Some(wanted)) => with(alloc, ask, spelled_wanted(alloc, wanted)?),
        Ok(None) => spelled(alloc, ask),
        Err(RequestError::Shape) => with(alloc, ask, misshapen(alloc, ask, body)?),
        Err(error) => with(alloc, ask, refused(alloc, error)?),
    }
}

fn misshapen(alloc: Global, ask: &Ask, body: &[u8]) -> Result<String, AllocError> {
    match misshapen_member(alloc, ask, body)? {
        Some(member) => format!(in alloc; "Shape at {}", member.as_str()),
        None => refused(alloc, RequestError::Shape),
    }
}

fn spelled_wanted(alloc: Global, wanted: Wanted) -> Result<String, AllocError> {
    match wanted {
        Wanted::Event(event) => spelled_whole(alloc, event),
        Wanted::OfNamed { name, change } => {
            let line = spelled_change(alloc, &name, change);
            drop(name);
            line
        }
        Wanted::Reports(events) => {
            let line = spelled_events(alloc, events.as_slice());
            drop(events);
            line
        }
    }
}

fn spelled_whole(alloc: Global, event: Event) -> Result<String, AllocError> {
    let line = spelled_event(alloc, &event);
    drop(event);
    line
}

/// Each event behind a blank.
fn spelled_events(alloc: Global, events: &[Event]) -> Result<String, AllocError> {
    let count = events.len();
    let mut text = format!(in alloc; "{count} of")?;
    for event in events {
        text.push_str(" ")?;
        text.push_str(spelled_event(alloc, event)?.as_str())?;
    }
    Ok(text)
}

fn spelled_change(
    alloc: Global,
    name: &CollectorName,
    change: Change,
) -> Result<String, AllocError> {
    match spelled_whole(alloc, change.event(NAMED)) {
        Ok(event) => format!(in alloc; "of <{}> {event}", name.as_str()),
        Err(error) => Err(error),
    }
}

fn spelled_event(alloc: Global, event: &Event) -> Result<String, AllocError> {
    Ok(event.to_json(alloc)?.into_string())
}

fn with(alloc: Global, ask: &Ask, said: String) -> Result<String, AllocError> {
    match spelled(alloc, ask) {
        Ok(ask) => format!(in alloc; "{ask} => {said}"),
        Err(error) => Err(error),
    }
}

/// What is asked for. Of what has no part of its own, the route in the figures.
fn spelled(alloc: Global, ask: &Ask) -> Result<String, AllocError> {
    match ask {
        Ask::ScrapeConfigs { rules: false } => String::from_str(alloc, "scrape configs"),
        Ask::ScrapeConfigs { rules: true } => String::from_str(alloc, "scrape configs with rules"),
        Ask::Job(job) => format!(in alloc; "job <{}>", job.as_str()),
        Ask::JobTargets(job) => format!(in alloc; "targets of <{}>", job.as_str()),
        Ask::CollectorTargets { job, name, takes } => {
            let at = if *takes { "at" } else { "as shown at" };
            format!(in alloc; "targets of <{}> {at} <{}>", job.as_str(), name.as_str())
        }
        Ask::Uncovered(job) => format!(in alloc; "uncovered of <{}>", job.as_str()),
        Ask::FindTargets(text) => format!(in alloc; "targets with <{}>", text.as_str()),
        Ask::Acknowledged { told, counts } => spelled_acknowledgement(alloc, told, *counts),
        Ask::Books(None) => String::from_str(alloc, "books"),
        Ask::Books(Some(round)) => format!(in alloc; "books of round {round}"),
        Ask::Collector(which) => of_collector(alloc, "collector", which),
        Ask::Leave(which) => of_collector(alloc, "leave", which),
        Ask::Drain(which) => of_collector(alloc, "drain", which),
        Ask::Release(which) => of_collector(alloc, "release", which),
        Ask::SetLimits(which) => of_collector(alloc, "limits of", which),
        plain => String::from_str(alloc, plain.route().name()),
    }
}

fn of_collector(alloc: Global, what: &str, which: &WhichCollector) -> Result<String, AllocError> {
    match which {
        WhichCollector::Number(id) => format!(in alloc; "{what} {id}"),
        WhichCollector::Name(name) => format!(in alloc; "{what} <{}>", name.as_str()),
    }
}

fn spelled_acknowledgement(
    alloc: Global,
    told: &Acknowledgement,
    counts: bool,
) -> Result<String, AllocError> {
    let (collector, list, epoch) = (told.collector, told.list, told.epoch);
    let job = told.job.as_str();
    let follows = if counts {
        "follows"
    } else {
        "as shown follows"
    };
    format!(in alloc; "{collector} {follows} list {list} of <{job}> of epoch {epoch}")
}
