//! Events are copied and compared, and answers are told.
use crate::allocations::{JOIN, event_in};
use fleet_events::{Answer, Event, Outcome, Refusal, Report};
use lists::{List, Plain};
use price_certificate::Fault;
use std::alloc::{AllocError, Global};
use std::test::Fail;

/// Whether the event of a text is the same as its copy, and whether it is that of another text.
fn compared(alloc: Global, text: &str, other: &str) -> Result<(bool, bool), AllocError> {
    match event_in(alloc, text) {
        Ok(event) => {
            let compared = compared_with(&event, event_in(alloc, other));
            drop(event);
            compared
        }
        Err(error) => Err(error),
    }
}

fn compared_with(
    event: &Event,
    other: Result<Event, AllocError>,
) -> Result<(bool, bool), AllocError> {
    match other {
        Ok(other) => {
            let compared = with_copy(event, event.same(&other));
            drop(other);
            compared
        }
        Err(error) => Err(error),
    }
}

fn with_copy(event: &Event, is_other: bool) -> Result<(bool, bool), AllocError> {
    Ok((is_copied(event)?, is_other))
}

fn is_copied<T: Plain + Drop>(value: &T) -> Result<bool, AllocError> {
    match value.copy() {
        Ok(copy) => {
            let is_same = copy.same(value);
            drop(copy);
            Ok(is_same)
        }
        Err(error) => Err(error),
    }
}

fn is_like_itself_alone(alloc: Global, text: &str, other: &str) -> Result<bool, AllocError> {
    let with_other = compared(alloc, text, other)?;
    Ok(with_other == (true, false) && compared(alloc, text, text)? == (true, true))
}

#[test]
fn copies_and_compares_events(rt: HostRuntime) -> Result<(), Fail> {
    for (text, other) in [
        (
            r#"{"event":"join","name":"a","reach":[],"limits":{"j":1}}"#,
            r#"{"event":"join","name":"a","reach":[],"limits":{"j":2}}"#,
        ),
        (
            r#"{"event":"limits","collector":1,"limits":{"j":1}}"#,
            r#"{"event":"limits","collector":2,"limits":{"j":1}}"#,
        ),
        (
            r#"{"event":"drain","collector":1}"#,
            r#"{"event":"leave","collector":1}"#,
        ),
        (
            r#"{"event":"report","collector":1,"number":2,"target":3,"round":4,"up":true,"samples":5}"#,
            r#"{"event":"take","collector":1}"#,
        ),
        (
            r#"{"event":"discover","job":"j","source":0,"targets":[{"targets":["h:1"]}]}"#,
            JOIN,
        ),
        (JOIN, r#"{"event":"round"}"#),
    ] {
        assert!(rt; is_like_itself_alone(rt.alloc(), text, other)?, "{text}");
    }
    Ok(())
}

#[test]
fn copies_a_report(rt: HostRuntime) -> Result<(), Fail> {
    let report = Report {
        collector: 1,
        allocation: 2,
        target: 3,
        round: 4,
        outcome: Outcome::Up(5),
    };
    assert!(rt; is_copied(&report)? && is_the_same(rt.alloc(), Event::Report(report))?);
    Ok(())
}

/// Whether the event is that of the report's line, and not that of another.
fn is_the_same(alloc: Global, event: Event) -> Result<bool, AllocError> {
    let line =
        r#"{"event":"report","collector":1,"number":2,"target":3,"round":4,"up":true,"samples":5}"#;
    match event_in(alloc, line) {
        Ok(read) => {
            let is_same = event.same(&read) && differs(&event, Event::Take(1));
            drop((event, read));
            Ok(is_same)
        }
        Err(error) => {
            drop(event);
            Err(error)
        }
    }
}

fn differs(event: &Event, other: Event) -> bool {
    let is_same = event.same(&other);
    drop(other);
    !is_same
}

/// Whether an answer and its copy are told by this line.
fn says(alloc: Global, answer: Answer, line: &str) -> Result<bool, AllocError> {
    match answer.copy() {
        Ok(copy) => {
            let is_said = have_line(alloc, &copy, &answer, line);
            drop((copy, answer));
            is_said
        }
        Err(error) => {
            drop(answer);
            Err(error)
        }
    }
}

fn have_line(
    alloc: Global,
    copy: &Answer,
    answer: &Answer,
    line: &str,
) -> Result<bool, AllocError> {
    Ok(has_line(alloc, copy, line)? && has_line(alloc, answer, line)?)
}

fn has_line(alloc: Global, answer: &Answer, line: &str) -> Result<bool, AllocError> {
    match answer.line(alloc) {
        Ok(text) => Ok(text.as_str() == line),
        Err(error) => Err(error),
    }
}

/// The answer to a collector that takes, with these targets.
fn says_taken(
    alloc: Global,
    allocation: u32,
    round: u32,
    held: &[u32],
    line: &str,
) -> Result<bool, AllocError> {
    match Vec::from_slice(alloc, held) {
        Ok(held) => says(alloc, taken(allocation, round, List::from_vec(held)), line),
        Err(error) => Err(error),
    }
}

fn taken(allocation: u32, round: u32, held: List<u32>) -> Answer {
    Answer::Taken {
        allocation,
        round,
        held,
    }
}

/// The answer to a collector that is served these targets, and not those.
fn says_served(
    alloc: Global,
    listed: &[u32],
    left_out: &[u32],
    line: &str,
) -> Result<bool, AllocError> {
    let listed = Vec::from_slice(alloc, listed)?;
    match Vec::from_slice(alloc, left_out) {
        Ok(left_out) => says(alloc, served(listed, left_out), line),
        Err(error) => Err(error),
    }
}

fn served(listed: Vec<u32>, left_out: Vec<u32>) -> Answer {
    Answer::Served {
        allocation: 2,
        round: 1,
        listed: List::from_vec(listed),
        left_out: List::from_vec(left_out),
    }
}

fn says_discovered(alloc: Global) -> Result<bool, AllocError> {
    let discovered = Answer::Discovered {
        added: 1,
        removed: 2,
    };
    says(alloc, discovered, "Discovered 1 2")
}

#[test]
fn says_answers(rt: HostRuntime) -> Result<(), Fail> {
    assert!(rt; says_of_collectors(rt.alloc())? && says_of_allocations(rt.alloc())?);
    Ok(())
}

fn says_of_collectors(alloc: Global) -> Result<bool, AllocError> {
    Ok(
        says(alloc, Answer::Joined(1), "Joined 1")?
            && says(alloc, Answer::Left, "Left")?
            && says(alloc, Answer::Draining, "Draining")?
            && says(alloc, Answer::LimitsSet, "LimitsSet")?
            && says(alloc, Answer::Booked, "Booked")?,
    )
}

fn says_of_allocations(alloc: Global) -> Result<bool, AllocError> {
    Ok(
        says_discovered(alloc)?
            && says(alloc, Answer::Published(4294967295), "Published 4294967295")?
            && says(alloc, Answer::RoundOpen(2), "RoundOpen 2")?
            && says_taken(alloc, 1, 2, &[0, 3, 5], "Taken 1 2 0,3,5")?
            && says_taken(alloc, 0, 1, &[], "Taken 0 1 -")?
            && says_served(alloc, &[0, 1], &[], "Served 2 1 0,1 -")?
            && says_served(alloc, &[], &[3], "Served 2 1 - 3")?
            && says(alloc, Answer::Released(3), "Released 3")?,
    )
}

#[test]
fn says_refusals(rt: HostRuntime) -> Result<(), Fail> {
    for (refusal, line) in [
        (Refusal::UnknownJob, "UnknownJob"),
        (Refusal::UnknownSource, "UnknownSource"),
        (Refusal::TooManyLive, "TooManyLive"),
        (Refusal::TooManyKnown, "TooManyKnown"),
        (Refusal::AlreadyJoined(3), "AlreadyJoined 3"),
        (Refusal::TooManyCollectors, "TooManyCollectors"),
        (Refusal::IdsSpent, "IdsSpent"),
        (Refusal::UnknownCollector, "UnknownCollector"),
        (Refusal::AlreadyDraining, "AlreadyDraining"),
        (
            Refusal::Refused(Fault::SumsDiffer(4, 3)),
            "Refused SumsDiffer 4 3",
        ),
        (Refusal::Unchanged(0), "Unchanged 0"),
        (Refusal::NumbersSpent, "NumbersSpent"),
        (Refusal::RoundsSpent, "RoundsSpent"),
        (Refusal::NotTaken(0), "NotTaken 0"),
        (Refusal::UnknownTarget, "UnknownTarget"),
        (Refusal::NotHolder(Some(2)), "NotHolder 2"),
        (Refusal::NotHolder(None), "NotHolder none"),
        (Refusal::StillServed(3), "StillServed 3"),
        (Refusal::RoundClosed(2), "RoundClosed 2"),
        (Refusal::RoundNotOpen(1), "RoundNotOpen 1"),
        (Refusal::AlreadyBooked, "AlreadyBooked"),
    ] {
        assert!(rt; says(rt.alloc(), Answer::Not(refusal), line)?, "{line}");
    }
    Ok(())
}
