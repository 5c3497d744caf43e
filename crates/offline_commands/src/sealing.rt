//! The command `seal`: a journal with its digests anew.
ghost use Rattle.std.specs.Prelude.{◌≡◌, IfOk, string_bytes};
ghost use Rattle.replay_lines.specs.Replays.{unreadable_line};
ghost use Rattle.offline_commands.specs.Seal.{IsTold, Seals};

use crate::answer::Answer;
use crate::ending::{Ending, Status, Stop};
use crate::journals::{read_journal, stop_at};
use crate::output::{write_answer, write_last, write_stop};
use crate::unreadable::Unreadable;
use durable_journal::{MOST_JOURNAL, sealed_by_hand};
use replay_lines::Damage;
use std::alloc::{AllocError, Global};
use std::fs::File;
use std::io::Write;
use std::rt::Files;

/// Writes the journal of a file with its digests anew, if it leads to an allocator. A file that is not read is told on standard error.
pub fn seal_file<R: Files<File = File> + Eprint, W: Write>(
    rt: &R,
    alloc: Global,
    path: &str,
    writer: &mut W,
) -> Ending {
    match read_journal(rt, alloc, path) {
        Ok(bytes) if bytes.len() as u64 > MOST_JOURNAL => {
            write_answer(writer, &Answer::NotRead(Unreadable::TooLong))
        }
        Ok(bytes) => run_seal(alloc, bytes.as_slice(), writer),
        Err(error) => stop_at(rt, path, &error, writer),
    }
}

/// Writes a journal with its digests anew, or the number of its first line that is damaged.
pub fn run_seal<W: Write>(alloc: Global, journal: &[u8], writer: &mut W) -> Ending
    ensures { Seals journal.now (W.contents writer.old) (W.contents writer.new) result }
{
    match sealed_by_hand(alloc, journal) {
        Ok(Ok(bytes)) => write_last(writer, bytes.as_slice(), Ending::Answered(Status::Done)),
        Ok(Err(damage)) => write_damage(alloc, damage, writer),
        Err(_) => write_stop(writer, &[], Stop::Memory),
    }
}

fn write_damage<W: Write>(alloc: Global, damage: Damage, writer: &mut W) -> Ending
    ensures { IsTold damage (W.contents writer.old) (W.contents writer.new) result }
{
    match damaged_line(alloc, damage) {
        Ok(line) => write_last(
            writer,
            line.as_bytes(),
            Ending::Answered(Status::Unreadable),
        ),
        Err(_) => write_stop(writer, &[], Stop::Memory),
    }
}

fn damaged_line(alloc: Global, damage: Damage) -> Result<String, AllocError>
    ensures { IfOk result (λ s. string_bytes s ≡ unreadable_line damage.line) }
{
    let number = damage.line;
    format!(in alloc; "unreadable {number}\n")
}
