//! Resumptions: the allocator that the lines of a text lead to.
ghost use Rattle.std.specs.Prelude.{◌≡◌, IfOk, MatchResult, OnOk, Ok, Err};
ghost use Rattle.replay_lines.specs.Lines.{lines_left, is_read, state_past};
ghost use Rattle.replay_lines.specs.Replays.{replay_of};
ghost use Rattle.replay_lines.specs.Resumes.{EndsAs, resumed, resumed_from, resumption_of};

use crate::configuration::open_core;
use crate::line::first_line;
use allocation_core::Core;
use fleet_events::read_event;
use std::alloc::{AllocError, Global};

/// What a text leads to.
#[derive(Drop)]
pub struct Resumption {
    pub core: Core,
    /// How many events its lines say.
    pub events: u64,
}

/// A line that says no event, or a first line that opens no allocator.
#[derive(Clone, Copy, PartialEq, Eq)]
pub struct Damage {
    /// Its number, from 1.
    pub line: u64,
}

/// The allocator after the events of all lines of a replay's input. It writes no answers and copies no event.
pub fn resume(alloc: Global, input: &[u8]) -> Result<Result<Resumption, Damage>, AllocError>
    ensures state { IfOk result (λ r. r ≡ resumed input.now) }
    ensures replay { IfOk result (EndsAs (replay_of input.now)) }
{
    let (line, others) = first_line(input);
    match open_core(alloc, line)? {
        Some(mut core) => {
            let applied = apply_lines(alloc, &mut core, others);
            with_core(core, applied)
        }
        None => Ok(Err(Damage { line: 1 })),
    }
}

fn with_core(
    core: Core,
    applied: Result<Result<u64, Damage>, AllocError>,
) -> Result<Result<Resumption, Damage>, AllocError>
    ensures { MatchResult applied (λ r. result ≡ Ok (resumption_of core r)) (λ e. result ≡ Err e) }
{
    match applied {
        Ok(Ok(events)) => Ok(Ok(Resumption { core, events })),
        Ok(Err(damage)) => {
            drop(core);
            Ok(Err(damage))
        }
        Err(error) => {
            drop(core);
            Err(error)
        }
    }
}

/// Applies the events of the lines after the first, and counts them.
fn apply_lines(
    alloc: Global,
    core: &mut Core,
    lines: Option<&[u8]>,
) -> Result<Result<u64, Damage>, AllocError>
    ensures { IfOk result (λ r. resumption_of core.new r ≡ resumed_from core.old (lines_left lines.entry)) }
{
    let mut left = lines;
    let mut number = 2;
    let mut events = 0;
    while let Some(bytes) = left {
        let (line, others) = first_line(bytes);
        if !apply_line(alloc, core, line)? {
            return Ok(Err(Damage { line: number }));
        }
        if !line.is_empty() {
            events += 1;
        }
        left = others;
        number += 1;
    }
    Ok(Ok(events))
}

/// Applies the event of a line, and says whether the line is empty or says one.
fn apply_line(alloc: Global, core: &mut Core, line: &[u8]) -> Result<bool, AllocError>
    ensures read { IfOk result (λ b. b ≡ is_read line.now) }
    ensures state { OnOk result (core.new ≡ state_past core.old line.now) }
{
    if line.is_empty() {
        return Ok(true);
    }
    match read_event(alloc, line)? {
        Some(event) => {
            drop(core.apply(event)?);
            Ok(true)
        }
        None => Ok(false),
    }
}
