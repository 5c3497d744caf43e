//! Writing an answer whole.
ghost use Rattle.std.specs.Prelude.{◌≡◌, ◌++◌, IsTrue};
ghost use Rattle.std.specs.Io.KnownBytes.{Appends};
ghost use Rattle.offline_commands.specs.Writing.{AppendsPart, IsWritten};
ghost use Rattle.offline_commands.specs.Ending.{stop_line};
ghost use Rattle.offline_commands.specs.Answer.{answer_text, answer_status};

use crate::answer::Answer;
use crate::ending::{Ending, Status, Stop};
use std::io::{ErrorKind, Write};

/// Writes an answer.
pub fn write_answer<W: Write>(writer: &mut W, answer: &Answer) -> Ending
    ensures { IsWritten (Ending.Answered (answer_status answer.now)) (answer_text answer.now) (W.contents writer.old) (W.contents writer.new) result }
{
    match answer {
        Answer::NotRead(why) => {
            let ending = Ending::Answered(Status::Unreadable);
            write_last(writer, why.line().as_bytes(), ending)
        }
        Answer::Text { text, status } => {
            write_last(writer, text.as_slice(), Ending::Answered(*status))
        }
    }
}

/// Writes the front of an answer, and a line that says why there is no more.
pub fn write_stop<W: Write>(writer: &mut W, front: &[u8], stop: Stop) -> Ending
    ensures { IsWritten (Ending.Stopped stop) (front.now ++ stop_line stop) (W.contents writer.old) (W.contents writer.new) result }
{
    if !write_whole(writer, front) {
        return Ending::Unwritten;
    }
    write_last(writer, stop.line().as_bytes(), Ending::Stopped(stop))
}

/// Writes the last bytes, and gives the ending; where the write fails nothing more is written.
pub fn write_last<W: Write>(writer: &mut W, bytes: &[u8], ending: Ending) -> Ending
    ensures { IsWritten ending bytes.now (W.contents writer.old) (W.contents writer.new) result }
{
    if !write_whole(writer, bytes) {
        return Ending::Unwritten;
    }
    if writer.flush().is_err() {
        return Ending::Unwritten;
    }
    ending
}

/// Writes the bytes, and says whether the writer took them all. A write that was interrupted is made again; any other
/// that fails, or that takes nothing, is the last.
fn write_whole<W: Write>(writer: &mut W, bytes: &[u8]) -> bool
    ensures whole { IsTrue result → Appends (W.contents writer.old) (W.contents writer.new) bytes.now }
    ensures part { AppendsPart (W.contents writer.old) (W.contents writer.new) bytes.now }
{
    let mut rest = bytes;
    for _turn in 0..u64::MAX {
        if rest.is_empty() {
            return true;
        }
        match writer.write(rest) {
            Ok(0) => return false,
            Ok(count) => rest = &rest[count..],
            Err(error) => {
                if error.kind() != ErrorKind::Interrupted {
                    return false;
                }
            }
        }
    }
    false
}
