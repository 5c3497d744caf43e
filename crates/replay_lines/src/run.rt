//! Replays from the first line to the last.
ghost use Rattle.std.specs.Prelude.{◌≡◌, ◌++◌, IfOk, OnOk, OnErr};
ghost use Rattle.allocation_core.specs.Steps.{answer_of, state_after};
ghost use Rattle.replay_lines.specs.Lines.{lines_left, is_read, text_of_line, state_past, AddsFront};
ghost use Rattle.replay_lines.specs.AsRuns.{IsRunOf};
ghost use Rattle.replay_lines.specs.Replays.{answered_line, totalled, unreadable_at, written_from, replay_of};

use crate::configuration::open_core;
use crate::line::first_line;
use allocation_core::{Core, booked_by_holders, published_are_best};
use fleet_events::{Answer, Event, read_event};
use std::alloc::{AllocError, Global};

/// How a replay ended.
#[derive(Clone, Copy, Debug, PartialEq, Eq)]
pub enum Ended {
    /// All events were answered.
    Done,
    /// A line says no event, or the first no configuration.
    Unreadable,
}

/// Replays the input, and appends what is written to the text. Without memory the text has the answers so far.
pub fn replay(alloc: Global, input: &[u8], text: &mut Vec<u8>) -> Result<Ended, AllocError>
    ensures text { OnOk result (text.new.items ≡ text.old.items ++ (replay_of input.now).text) }
    ensures ended { IfOk result (λ e. e ≡ (replay_of input.now).ended) }
    ensures memory { OnErr result (AddsFront (replay_of input.now).text text.old.items text.new.items) }
    ensures run { IsRunOf input.now (replay_of input.now) }
{
    published_are_best();
    booked_by_holders();
    let (line, others) = first_line(input);
    match open_core(alloc, line)? {
        Some(mut core) => {
            let ended = answer_lines(alloc, &mut core, others, text);
            drop(core);
            ended
        }
        None => write_unreadable(alloc, 1, text),
    }
}

/// Answers the lines after the first, and writes the total.
fn answer_lines(
    alloc: Global,
    core: &mut Core,
    lines: Option<&[u8]>,
    text: &mut Vec<u8>,
) -> Result<Ended, AllocError>
    ensures text { OnOk result (text.new.items ≡ text.old.items ++ (written_from 2 core.old (lines_left lines.entry)).text) }
    ensures ended { IfOk result (λ e. e ≡ (written_from 2 core.old (lines_left lines.entry)).ended) }
    ensures memory { OnErr result (AddsFront (written_from 2 core.old (lines_left lines.entry)).text text.old.items text.new.items) }
{
    let mut left = lines;
    let mut number = 2;
    while let Some(bytes) = left {
        let (line, others) = first_line(bytes);
        if !answer_line(alloc, core, line, text)? {
            return write_unreadable(alloc, number, text);
        }
        left = others;
        number += 1;
    }
    write_total(alloc, core, text)
}

/// Answers a line, and says whether it is empty or says an event. An empty one has no answer.
fn answer_line(
    alloc: Global,
    core: &mut Core,
    line: &[u8],
    text: &mut Vec<u8>,
) -> Result<bool, AllocError>
    ensures read { IfOk result (λ b. b ≡ is_read line.now) }
    ensures state { OnOk result (core.new ≡ state_past core.old line.now) }
    ensures text { OnOk result (text.new.items ≡ text.old.items ++ text_of_line core.old line.now) }
    ensures memory { OnErr result (text.new.items ≡ text.old.items) }
{
    if line.is_empty() {
        return Ok(true);
    }
    match read_event(alloc, line)? {
        Some(event) => {
            answer_event(alloc, core, event, text)?;
            Ok(true)
        }
        None => Ok(false),
    }
}

fn answer_event(
    alloc: Global,
    core: &mut Core,
    event: Event,
    text: &mut Vec<u8>,
) -> Result<(), AllocError>
    ensures state { OnOk result (core.new ≡ state_after core.old event) }
    ensures text { OnOk result (text.new.items ≡ text.old.items ++ answered_line (answer_of core.old event)) }
    ensures memory { OnErr result (text.new.items ≡ text.old.items) }
{
    let answer = core.apply(event)?;
    let written = write_answer(alloc, &answer, text);
    drop(answer);
    written
}

fn write_answer(alloc: Global, answer: &Answer, text: &mut Vec<u8>) -> Result<(), AllocError>
    ensures text { OnOk result (text.new.items ≡ text.old.items ++ answered_line answer.now) }
    ensures memory { OnErr result (text.new.items ≡ text.old.items) }
{
    let mut line = answer.line(alloc)?;
    line.push_str("\n")?;
    text.extend_from_slice(line.as_bytes())?;
    Ok(())
}

fn write_total(alloc: Global, core: &Core, text: &mut Vec<u8>) -> Result<Ended, AllocError>
    ensures text { OnOk result (text.new.items ≡ text.old.items ++ (totalled core.now).text) }
    ensures ended { IfOk result (λ e. e ≡ (totalled core.now).ended) }
    ensures memory { OnErr result (text.new.items ≡ text.old.items) }
{
    let total = core.total();
    let line = format!(in alloc; "total {total}\n")?;
    text.extend_from_slice(line.as_bytes())?;
    Ok(Ended::Done)
}

fn write_unreadable(alloc: Global, number: u64, text: &mut Vec<u8>) -> Result<Ended, AllocError>
    ensures text { OnOk result (text.new.items ≡ text.old.items ++ (unreadable_at number).text) }
    ensures ended { IfOk result (λ e. e ≡ (unreadable_at number).ended) }
    ensures memory { OnErr result (text.new.items ≡ text.old.items) }
{
    let line = format!(in alloc; "unreadable {number}\n")?;
    text.extend_from_slice(line.as_bytes())?;
    Ok(Ended::Unreadable)
}
