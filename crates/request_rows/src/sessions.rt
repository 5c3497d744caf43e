//! What the documents of sessions say, and the lines that sessions write, each in quotes.
use crate::numbers::{first_part, first_word, large, number};
use collector_pool::{Turn, TurnEnd};
use fleet_events::Event;
use session::{
    Page, Session, SessionError, Sums, read_session, round_line, source_line, sums_of, total_line,
};
use std::alloc::{AllocError, Global};

/// The document of a session: what it says in a few words.
pub(crate) fn session(alloc: Global, bytes: &[u8]) -> Result<String, AllocError> {
    match read_session(alloc, bytes) {
        Ok(session) => {
            let line = outline(alloc, &session);
            drop(session);
            line
        }
        Err(SessionError::Memory) => Err(AllocError),
        Err(error) => format!(in alloc; "{error:?}"),
    }
}

fn outline(alloc: Global, session: &Session) -> Result<String, AllocError> {
    let rounds = session.rounds;
    let mut text = format!(in alloc; "rounds {rounds}")?;
    push_session(alloc, &mut text, session)?;
    Ok(text)
}

fn push_session(alloc: Global, text: &mut String, session: &Session) -> Result<(), AllocError> {
    for job in session.config.jobs.as_slice() {
        push_named(text, " | job ", job.name.as_str())?;
    }
    for event in session.joins.as_slice() {
        push_join(text, event)?;
    }
    for page in session.pages.as_slice() {
        push_page(alloc, text, page)?;
    }
    for ask in session.asks.as_slice() {
        push_named(text, " | ask ", ask.as_str())?;
    }
    Ok(())
}

fn push_named(text: &mut String, what: &str, name: &str) -> Result<(), AllocError> {
    text.push_str(what)?;
    text.push_str(name)
}

fn push_join(text: &mut String, event: &Event) -> Result<(), AllocError> {
    match event {
        Event::Join { name, .. } => push_named(text, " | collector ", name.as_str()),
        _ => text.push_str(" | another event"),
    }
}

fn push_page(alloc: Global, text: &mut String, page: &Page) -> Result<(), AllocError> {
    push_named(text, " | page ", page.path.as_str())?;
    let status = page.status;
    let media = page.media.as_str();
    let body = page.body.as_str();
    let told = format!(in alloc; " {status} {media} {body:?}")?;
    text.push_str(told.as_str())
}

/// The line of a round, as `NUMBER | TURN | TURN ..`. A turn is its allocation's number, what was booked and refused, its samples and its end.
pub(crate) fn round(alloc: Global, text: &str) -> Result<String, AllocError> {
    let (round, turns) = first_part(text);
    quoted(
        alloc,
        round_line(alloc, number(round), &sums(alloc, turns)?)?,
    )
}

fn sums(alloc: Global, text: &str) -> Result<Sums, AllocError> {
    let mut turns = Vec::new(alloc);
    for turn in text.split(" | ") {
        turns.push(turn_of(turn))?;
    }
    Ok(sums_of(turns.as_slice()))
}

fn turn_of(text: &str) -> Turn {
    let (allocation, rest) = first_word(text);
    let (booked, rest) = first_word(rest);
    let (refused, rest) = first_word(rest);
    let (samples, end) = first_word(rest);
    Turn {
        number: number(allocation),
        booked: number(booked),
        refused: number(refused),
        samples: large(samples),
        end: end_of(end),
    }
}

fn end_of(text: &str) -> TurnEnd {
    match text {
        "Complete" => TurnEnd::Complete,
        "NotJoined" => TurnEnd::NotJoined,
        "JournalFull" => TurnEnd::JournalFull,
        _ => TurnEnd::Memory,
    }
}

/// The line of a source that was refused, as `SOURCE NAME JOB`.
pub(crate) fn source(alloc: Global, text: &str) -> Result<String, AllocError> {
    let (source, rest) = first_word(text);
    let (name, job) = first_word(rest);
    quoted(alloc, source_line(alloc, job, number(source), name)?)
}

/// The line of all samples.
pub(crate) fn total(alloc: Global, text: &str) -> Result<String, AllocError> {
    quoted(alloc, total_line(alloc, u128::from(large(text)))?)
}

fn quoted(alloc: Global, line: String) -> Result<String, AllocError> {
    format!(in alloc; "{line:?}")
}
