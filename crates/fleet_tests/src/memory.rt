//! Want of memory changes nothing: the same event is then answered as if it had been there at once.
use crate::allocations::{JOIN, core, event_in, held, items};
use allocation_core::Core;
use std::alloc::{AllocError, Global};
use std::test::Fail;

/// Events, and the lines of their answers. The plan is the best one of one target and one collector that reaches it.
const EVENTS: [(&str, &str); 5] = [
    (
        r#"{"event":"discover","job":"j","source":0,"targets":[{"labels":{"job":"j"},"targets":["h:1"]}]}"#,
        "Discovered 1 0",
    ),
    (JOIN, "Joined 1"),
    (
        r#"{"event":"install","pairs":[[0,0]],"item_prices":[6],"bin_prices":[0]}"#,
        "Published 1",
    ),
    (r#"{"event":"take","collector":1}"#, "Taken 1 1 0"),
    (
        r#"{"event":"report","collector":1,"number":1,"target":0,"round":1,"up":true,"samples":7}"#,
        "Booked",
    ),
];

/// What comes of an event that is applied.
#[derive(Clone, Copy, PartialEq, Eq)]
pub(crate) enum Applied {
    AsSaid,
    Otherwise,
    /// Memory was wanted.
    NotApplied,
}

pub(crate) fn apply_line(
    alloc: Global,
    core: &mut Core,
    line: &str,
    answer: &str,
) -> Result<Applied, AllocError> {
    match event_in(alloc, line) {
        Ok(event) => match core.apply(event) {
            Ok(answered) => {
                let applied = said(answered.line(alloc), answer);
                drop(answered);
                applied
            }
            Err(_) => Ok(Applied::NotApplied),
        },
        Err(error) => Err(error),
    }
}

fn said(line: Result<String, AllocError>, answer: &str) -> Result<Applied, AllocError> {
    match line {
        Ok(line) => Ok(compared(line.as_str(), answer)),
        Err(error) => Err(error),
    }
}

fn compared(line: &str, answer: &str) -> Applied {
    if line == answer {
        Applied::AsSaid
    } else {
        Applied::Otherwise
    }
}

/// What the readers say.
fn read(core: &Core) -> Result<[u128; 7], AllocError> {
    Ok([
        u128::from(core.current()),
        u128::from(core.round()),
        core.total(),
        u128::from(core.named("a").unwrap_or(0)),
        items(core)? as u128,
        held(core)? as u128,
        u128::from(core.target(0).is_some()),
    ])
}

/// Whether the event is answered so. Where memory is wanted, the readers are to say what they said before, and the event is
/// applied again.
fn is_answered(
    alloc: Global,
    core: &mut Core,
    line: &str,
    answer: &str,
) -> Result<bool, AllocError> {
    let before = read(core)?;
    match apply_line(alloc, core, line, answer)? {
        Applied::NotApplied => {
            let same = read(core)? == before;
            Ok(same && apply_line(alloc, core, line, answer)? == Applied::AsSaid)
        }
        came => Ok(came == Applied::AsSaid),
    }
}

fn are_answered(alloc: Global, core: &mut Core) -> Result<bool, AllocError> {
    for (line, answer) in EVENTS {
        if !is_answered(alloc, core, line, answer)? {
            return Ok(false);
        }
    }
    Ok(core.total() == 7)
}

#[test]
fn want_of_memory_changes_nothing(rt: HostRuntime) -> Result<(), Fail> {
    assert!(rt; changes_nothing(rt.alloc())?);
    Ok(())
}

fn changes_nothing(alloc: Global) -> Result<bool, AllocError> {
    match core(alloc) {
        Ok(mut core) => {
            let are_answered = are_answered(alloc, &mut core);
            drop(core);
            are_answered
        }
        Err(error) => Err(error),
    }
}
