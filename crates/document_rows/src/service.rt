//! The words of the program and the settings of the service.
use crate::answers::READ;
use crate::values::NONE;
use command_words::{Asked, ServeOptions, read_words};
use json_values::parse;
use lists::Text;
use reach_rules::{OwnLimits, Reach};
use serde_json::Value;
use service_settings::{
    Collector, CollectorTimeout, DEFAULT_REPORT_ROUNDS, JoiningPattern, ReleaseAfter, Settings,
    SettingsError, Spread, address_of, duration_of, read_settings,
};
use std::alloc::{AllocError, Global};

pub(crate) fn address(alloc: Global, text: &str) -> Result<String, AllocError> {
    match address_of(text) {
        Some(address) => {
            let [a, b, c, d] = address.octets;
            let port = address.port;
            format!(in alloc; "{READ} {a}.{b}.{c}.{d}:{port}")
        }
        None => String::from_str(alloc, "no address"),
    }
}

/// A duration, in milliseconds.
pub(crate) fn duration(alloc: Global, text: &str) -> Result<String, AllocError> {
    match duration_of(text) {
        Some(length) => format!(in alloc; "{READ} {length}"),
        None => String::from_str(alloc, "no duration"),
    }
}

/// A list of the words of a command line: what they ask for, or the first line of what is told of them.
pub(crate) fn arguments(alloc: Global, text: &str) -> Result<String, AllocError> {
    match parse(alloc, text.as_bytes())? {
        Some(Value::Array(values)) => {
            let line = asked_by(alloc, values.as_slice());
            drop(values);
            line
        }
        other => {
            drop(other);
            String::from_str(alloc, NONE)
        }
    }
}

fn asked_by(alloc: Global, values: &[Value]) -> Result<String, AllocError> {
    let mut words = Vec::new(alloc);
    let line = match push_words(alloc, &mut words, values) {
        Ok(()) => asked_with(alloc, words.as_slice()),
        Err(error) => Err(error),
    };
    drop(words);
    line
}

fn push_words(alloc: Global, words: &mut Vec<String>, values: &[Value]) -> Result<(), AllocError> {
    for value in values {
        words.push(String::from_str(alloc, value.as_str().unwrap_or(""))?)?;
    }
    Ok(())
}

fn asked_with(alloc: Global, words: &[String]) -> Result<String, AllocError> {
    match read_words(alloc, words) {
        Ok(asked) => {
            let line = asked_for(alloc, &asked);
            drop(asked);
            line
        }
        Err(error) => Err(error),
    }
}

fn asked_for(alloc: Global, asked: &Asked<'_>) -> Result<String, AllocError> {
    match asked {
        Asked::Answer(command) => format!(in alloc; "{command:?}"),
        Asked::Session => String::from_str(alloc, "Session"),
        Asked::Audit(paths) => format!(in alloc; "Audit {paths:?}"),
        Asked::Books(paths) => format!(in alloc; "Books {paths:?}"),
        Asked::Seal(path) => format!(in alloc; "Seal {path}"),
        Asked::Serve(options) => options_of(alloc, options),
        Asked::Agent(config) => format!(in alloc; "Agent {config}"),
        Asked::Shown(text) => format!(in alloc; "shown: {}", first_line(text)),
        Asked::Refused(text) => format!(in alloc; "refused: {}", first_line(text)),
    }
}

fn options_of(alloc: Global, options: &ServeOptions<'_>) -> Result<String, AllocError> {
    let config = options.config;
    let listen = options.listen.unwrap_or("-");
    let journal = options.journal.unwrap_or("-");
    let check = options.check_config;
    format!(in alloc; "Serve {config} {listen} {journal} {check}")
}

fn first_line(text: &String) -> &str {
    text.as_str().lines().next().unwrap_or("")
}

/// The settings that a document says, or why it is refused.
pub(crate) fn settings(alloc: Global, bytes: &[u8]) -> Result<String, AllocError> {
    match read_settings(alloc, bytes) {
        Ok(settings) => {
            let line = outline(alloc, &settings);
            drop(settings);
            line
        }
        Err(SettingsError::Memory) => Err(AllocError),
        Err(fault) => fault.line(alloc),
    }
}

/// All settings.
fn outline(alloc: Global, settings: &Settings) -> Result<String, AllocError> {
    let mut text = format!(in alloc; "{READ} {}", settings.scrape_interval)?;
    add_refresh(alloc, &mut text, settings)?;
    add_rest(alloc, &mut text, settings)?;
    if let Some(journal) = &settings.journal {
        text.push_str(" ")?;
        text.push_str(journal.as_str())?;
    }
    add_collectors(alloc, &mut text, settings.collectors.as_slice())?;
    add_patterns(alloc, &mut text, settings.join_by_asking.as_slice())?;
    Ok(text)
}

/// The intervals at which sources are asked, those of a job in brackets.
fn add_refresh(alloc: Global, text: &mut String, settings: &Settings) -> Result<(), AllocError> {
    for intervals in settings.refresh.as_slice() {
        text.push_str(" [")?;
        for interval in intervals.as_slice() {
            text.push_str(format!(in alloc; " {interval}")?.as_str())?;
        }
        text.push_str(" ]")?;
    }
    Ok(())
}

fn add_rest(alloc: Global, text: &mut String, settings: &Settings) -> Result<(), AllocError> {
    text.push_str(rest_outline(alloc, settings)?.as_str())?;
    text.push_str(doors_outline(alloc, settings)?.as_str())?;
    text.push_str(handover_outline(alloc, settings)?.as_str())?;
    text.push_str(spread_outline(alloc, settings.spread)?.as_str())?;
    text.push_str(rounds_outline(alloc, settings.report_rounds)?.as_str())
}

/// Of how many rounds reports are booked, where it is not the usual number.
fn rounds_outline(alloc: Global, report_rounds: u32) -> Result<String, AllocError> {
    if report_rounds == DEFAULT_REPORT_ROUNDS {
        return Ok(String::new(alloc));
    }
    format!(in alloc; " rounds {report_rounds}")
}

/// The other settings.
fn rest_outline(alloc: Global, settings: &Settings) -> Result<String, AllocError> {
    let [a, b, c, d] = settings.listen.octets;
    let port = settings.listen.port;
    let reload = settings.lifecycle.reload;
    let quit = settings.lifecycle.quit;
    let keep = settings.keep;
    let settle = settings.settle;
    let timeout = timeout_outline(alloc, settings.collector_timeout)?;
    let fetch = settings.fetch_timeout;
    format!(in alloc; " {a}.{b}.{c}.{d}:{port} {reload} {quit} {keep} {settle} {timeout} {fetch}")
}

/// Who may ask, and what is taken.
fn doors_outline(alloc: Global, settings: &Settings) -> Result<String, AllocError> {
    let doors = &settings.doors;
    let hosts = doors.hosts.len();
    let admin = text_or_dash(&doors.admin_tokens);
    let collectors = text_or_dash(&doors.collector_tokens);
    let open = doors.open_to_all;
    let give_up = settings.give_up;
    let connections = settings.connections;
    let no_jobs = settings.allow_no_jobs;
    let reach = settings.reach_changes;
    let rejoin = settings.rejoin;
    format!(in alloc;
        " {give_up} {connections} {hosts} {admin} {collectors} {open} {no_jobs} {reach:?} {rejoin}"
    )
}

/// How lists are handed over.
fn handover_outline(alloc: Global, settings: &Settings) -> Result<String, AllocError> {
    let handover = settings.handover;
    let release = release_outline(alloc, settings.release_after)?;
    match &settings.acknowledge {
        Some(at) => format!(in alloc; " {handover:?} {release} at {}", at.as_str()),
        None => format!(in alloc; " {handover:?} {release}"),
    }
}

/// How even loads are made, where they are.
fn spread_outline(alloc: Global, spread: Option<Spread>) -> Result<String, AllocError> {
    let Some(Spread { slack, most_moves }) = spread else {
        return Ok(String::new(alloc));
    };
    match most_moves {
        Some(most_moves) => format!(in alloc; " even {slack} moves {most_moves}"),
        None => format!(in alloc; " even {slack}"),
    }
}

fn timeout_outline(alloc: Global, timeout: CollectorTimeout) -> Result<String, AllocError> {
    match timeout {
        CollectorTimeout::Adaptive => String::from_str(alloc, "adaptive"),
        CollectorTimeout::After(millis) => format!(in alloc; "{millis}"),
        CollectorTimeout::Never => String::from_str(alloc, "never"),
    }
}

fn release_outline(alloc: Global, release: ReleaseAfter) -> Result<String, AllocError> {
    match release {
        ReleaseAfter::WithTimeout => String::from_str(alloc, "with the timeout"),
        ReleaseAfter::After(millis) => format!(in alloc; "{millis}"),
        ReleaseAfter::Never => String::from_str(alloc, "never"),
    }
}

fn text_or_dash(text: &Option<Text>) -> &str {
    match text {
        Some(text) => text.as_str(),
        None => "-",
    }
}

/// The names of the collectors, with how many limits each has.
fn add_collectors(
    alloc: Global,
    text: &mut String,
    collectors: &[Collector],
) -> Result<(), AllocError> {
    for collector in collectors {
        let name = collector.name.as_str();
        let limits = collector.limits.entries().len();
        text.push_str(format!(in alloc; " {name}:{limits}")?.as_str())?;
    }
    Ok(())
}

/// The patterns of those that join by asking, with how many limits each has.
fn add_patterns(
    alloc: Global,
    text: &mut String,
    patterns: &[JoiningPattern],
) -> Result<(), AllocError> {
    for pattern in patterns {
        let name = pattern.pattern.as_str();
        let limits = pattern.limits.entries().len();
        text.push_str(format!(in alloc; " ~{name}:{limits}")?.as_str())?;
    }
    Ok(())
}

/// A list of a pattern and a name: whether the name matches the pattern, and a copy of it.
pub(crate) fn joins(alloc: Global, text: &str) -> Result<String, AllocError> {
    match parse(alloc, text.as_bytes())? {
        Some(Value::Array(values)) => {
            let line = joins_in(alloc, values.as_slice());
            drop(values);
            line
        }
        other => {
            drop(other);
            String::from_str(alloc, NONE)
        }
    }
}

fn joins_in(alloc: Global, values: &[Value]) -> Result<String, AllocError> {
    match values {
        [pattern, name] => joins_by(alloc, pattern.as_str(), name.as_str()),
        _ => String::from_str(alloc, NONE),
    }
}

fn joins_by(
    alloc: Global,
    pattern: Option<&str>,
    name: Option<&str>,
) -> Result<String, AllocError> {
    match pattern_of(alloc, pattern.unwrap_or("")) {
        Ok(pattern) => {
            let line = both_match(alloc, &pattern, name.unwrap_or(""));
            drop(pattern);
            line
        }
        Err(error) => Err(error),
    }
}

/// The pattern of those that reach nothing and have no limits.
fn pattern_of(alloc: Global, pattern: &str) -> Result<JoiningPattern, AllocError> {
    let pattern = Text::from_str(alloc, pattern)?;
    let rules = Value::Array(Vec::new(alloc));
    let reach = Reach::read(alloc, &rules);
    drop(rules);
    match reach {
        Ok(reach) => Ok(JoiningPattern {
            pattern,
            reach,
            limits: OwnLimits::none(alloc),
        }),
        Err(_) => Err(AllocError),
    }
}

fn both_match(alloc: Global, pattern: &JoiningPattern, name: &str) -> Result<String, AllocError> {
    match pattern.copy() {
        Ok(copy) => {
            let (first, second) = (pattern.matches(name), copy.matches(name));
            drop(copy);
            format!(in alloc; "{first} {second}")
        }
        Err(error) => Err(error),
    }
}
