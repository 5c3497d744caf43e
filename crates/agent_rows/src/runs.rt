//! A run of an agent, in steps with ` | ` between:
//!
//!     take AT EPOCH NUMBER ROUND UNTIL NUMBER=SERIES ..     a list is taken; NUMBER=SERIES@JOB/URL?NAME=VALUE shares its series
//!     look AT EPOCH NUMBER ROUND UNTIL NUMBER=SERIES ..     a list is shown
//!     gone AT, unknown AT, over, serve AT
//!     ask AT SERIES:TIME:SAMPLES ..                         Prometheus says these scrapes; with `down` in place of the samples one that failed,
//!                                                           and with SERIES@JOB/URL?NAME=VALUE:TIME a last one of a series that is shared
//!
//! The answer has the reports, as EPOCH.NUMBER.ROUND.TARGET:TIME:SAMPLES, and what is served.
use crate::shared::{is_last, lasts_in, listed_in};
use agent_core::{Agent, Head, Listed, Lists, Memory, Point, Report, Said, Series, Serving};
use indexmap::{IndexMap, IndexSet};
use lists::{List, Text};
use scrape_books::Outcome;
use std::alloc::{AllocError, Global};

/// For how long an agent of a run keeps its lists without the allocator.
const LEASE: u64 = 1000;

pub(crate) fn run(alloc: Global, text: &str) -> Result<String, AllocError> {
    let mut agent = Agent::new(alloc, Memory::open(alloc), Some(LEASE));
    let mut line = String::new(alloc);
    for step in text.split(" | ") {
        take_step(alloc, &mut agent, &mut line, step)?;
    }
    Ok(line)
}

fn take_step(
    alloc: Global,
    agent: &mut Agent,
    line: &mut String,
    step: &str,
) -> Result<(), AllocError> {
    let (word, rest) = step.split_once(' ').unwrap_or((step, ""));
    let (at, rest) = rest.split_once(' ').unwrap_or((rest, ""));
    let at: u64 = at.parse().unwrap_or(0);
    match word {
        "take" => agent.taken(at, lists_in(alloc, rest)?),
        "look" => show(alloc, agent, at, rest),
        "gone" => {
            agent.gone(at);
            Ok(())
        }
        "unknown" => {
            agent.unknown(at);
            Ok(())
        }
        "over" => {
            agent.over();
            Ok(())
        }
        "ask" => ask(alloc, agent, line, at, rest),
        "serve" => serve(line, agent, at),
        _ => line.push_str("no step;"),
    }
}

fn show(alloc: Global, agent: &mut Agent, at: u64, text: &str) -> Result<(), AllocError> {
    let lists = lists_in(alloc, text)?;
    agent.shown(at, &lists);
    Ok(())
}

pub(crate) fn lists_in(alloc: Global, text: &str) -> Result<Lists, AllocError> {
    let mut words = text.split(' ');
    let epoch = words.next().unwrap_or("").parse().unwrap_or(0);
    let number = words.next().unwrap_or("").parse().unwrap_or(0);
    let round = words.next().unwrap_or("").parse().unwrap_or(0);
    let until = words.next().unwrap_or("").parse().unwrap_or(0);
    let mut targets = IndexSet::new(alloc);
    for word in words {
        targets.insert(listed_in(alloc, word)?)?;
    }
    Ok(Lists {
        head: Head {
            collector: 1,
            epoch,
            number,
            round,
        },
        until,
        targets,
    })
}

fn ask(
    alloc: Global,
    agent: &mut Agent,
    line: &mut String,
    at: u64,
    text: &str,
) -> Result<(), AllocError> {
    let said = said_in(alloc, text)?;
    let lasts = lasts_in(alloc, text)?;
    let reports = agent.choose(at, &said, &lasts)?;
    for report in reports.as_slice() {
        add_report(alloc, line, report)?;
    }
    line.push(';')
}

pub(crate) fn said_in(alloc: Global, text: &str) -> Result<Said, AllocError> {
    let mut said = IndexMap::new(alloc);
    for word in text.split(' ') {
        if !is_last(word) {
            add_word(alloc, &mut said, word)?;
        }
    }
    Ok(said)
}

fn add_word(alloc: Global, said: &mut Said, word: &str) -> Result<(), AllocError> {
    let (series, point) = word.split_once(':').unwrap_or((word, ""));
    add_point(alloc, said, series, point)
}

/// Adds a point behind those of its series.
fn add_point(alloc: Global, said: &mut Said, series: &str, text: &str) -> Result<(), AllocError> {
    let labels = Text::from_str(alloc, series)?;
    let series = Series { labels };
    let mut points = said.swap_remove(&series).unwrap_or(List::new(alloc));
    points.push(point_in(text))?;
    said.insert(series, points)?;
    Ok(())
}

fn point_in(text: &str) -> Point {
    let (time, samples) = text.split_once(':').unwrap_or((text, ""));
    Point {
        time: time.parse().unwrap_or(0),
        outcome: if samples == "down" {
            Outcome::Down
        } else {
            Outcome::Up(samples.parse().unwrap_or(0))
        },
    }
}

pub(crate) fn add_report(
    alloc: Global,
    line: &mut String,
    report: &Report,
) -> Result<(), AllocError> {
    let (head, target, time) = (report.head, report.target, report.time);
    let place = format!(in alloc;
        " {}.{}.{}.{target}:{time}",
        head.epoch, head.number, head.round
    )?;
    line.push_str(place.as_str())?;
    match report.outcome {
        Outcome::Up(samples) => line.push_str(format!(in alloc; ":{samples}")?.as_str()),
        Outcome::Down => line.push_str(":down"),
    }
}

fn serve(line: &mut String, agent: &Agent, at: u64) -> Result<(), AllocError> {
    match agent.serving(at) {
        Serving::Unknown => line.push_str(" unknown;"),
        Serving::Nothing => line.push_str(" [];"),
        Serving::Served => {
            line.push_str(" [")?;
            for place in agent.served() {
                add_group(line, agent.targets(), *place)?;
            }
            line.push_str("];")
        }
    }
}

fn add_group(line: &mut String, targets: &[Listed], place: usize) -> Result<(), AllocError> {
    match targets.get(place) {
        Some(listed) => {
            line.push_str(listed.group.as_str())?;
            line.push(' ')
        }
        None => Ok(()),
    }
}
