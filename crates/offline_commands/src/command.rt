//! The commands that answer one input.
ghost use Rattle.offline_commands.specs.Commands.{RunsAs};

use crate::check::run_check;
use crate::ending::Ending;
use crate::plan::run_plan;
use crate::relabelling::run_relabel;
use crate::replay::run_replay;
use crate::spreading::run_spread;
use command_words::InputCommand;
use std::alloc::Global;
use std::io::{Read, Write};

/// Runs a command, and gives how it ended.
pub fn run<R: Read, W: Write>(
    alloc: Global,
    command: InputCommand,
    reader: &mut R,
    writer: &mut W,
) -> Ending
    ensures { RunsAs command (R.remaining reader.old) (W.contents writer.old) (W.contents writer.new) result }
{
    match command {
        InputCommand::Check => run_check(alloc, reader, writer),
        InputCommand::Plan => run_plan(alloc, reader, writer),
        InputCommand::Spread(options) => run_spread(alloc, options, reader, writer),
        InputCommand::Relabel => run_relabel(alloc, reader, writer),
        InputCommand::Replay => run_replay(alloc, reader, writer),
    }
}
