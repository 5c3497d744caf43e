//! The command `session`: it runs a whole fleet in one process.
ghost use Rattle.std.specs.Prelude.{◌≡◌};
ghost use Rattle.allocd.specs.Session.{session_ending, session_text};
ghost use Rattle.offline_commands.specs.Writing.{IsWritten};

use event_loops::Runtime;
use offline_commands::{
    Answer, Ending, Input, Status, Stop, Unreadable, read_input, write_answer, write_last,
    write_stop,
};
use session_command::{Ended, Fault, session};
use std::alloc::Global;
use std::io::{Read, Write};

/// Reads the document of a session to its end, runs the session, and writes its lines.
pub fn run_session<R, D: Read, W: Write>(
    rt: &R,
    alloc: Global,
    reader: &mut D,
    writer: &mut W,
) -> Ending
where
    R: Runtime,
{
    match read_input(alloc, reader) {
        Ok(Input::Whole(document)) => {
            let mut text = Vec::new(alloc);
            let ended = session(rt, alloc, document.as_slice(), &mut text);
            write_session(writer, ended, text.as_slice())
        }
        Ok(Input::TooLong) => write_answer(writer, &Answer::NotRead(Unreadable::TooLong)),
        Err(stop) => write_stop(writer, &[], stop),
    }
}

/// Writes a session's lines, or why there are none or no more.
pub fn write_session<W: Write>(writer: &mut W, ended: Result<Ended, Fault>, text: &[u8]) -> Ending
    ensures { IsWritten (session_ending ended) (session_text ended text.now) (W.contents writer.old) (W.contents writer.new) result }
{
    match ended {
        Ok(Ended::Done) => write_last(writer, text, Ending::Answered(Status::Done)),
        Ok(Ended::Refused) => write_last(writer, text, Ending::Answered(Status::Refused)),
        Ok(Ended::NotJson) => write_answer(writer, &Answer::NotRead(Unreadable::NotJson)),
        Ok(Ended::Shape) => write_answer(writer, &Answer::NotRead(Unreadable::Shape)),
        Err(Fault::Memory) => write_stop(writer, text, Stop::Memory),
        Err(Fault::Device) => write_stop(writer, text, Stop::Device),
    }
}
