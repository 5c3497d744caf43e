//! The command `replay`: it runs a configuration's allocator over a list of events.
ghost use Rattle.std.specs.Prelude.{◌≡◌, IfErr, IfOk};
ghost use Rattle.offline_commands.specs.Answer.{EndsTo, IsFront};
ghost use Rattle.offline_commands.specs.Replay.{Begins, BeginsReplay, IsAnswerOfReplay, Replays, ended_status, unreadable_for};

use crate::answer::{Answer, Unfinished, whole_or_nothing};
use crate::ending::{Ending, Status};
use crate::runner::{Task, run_task};
use lists::List;
use replay_lines::{Ended, replay};
use sealed_lines::{WrongDigest, is_sealed, unsealed};
use std::alloc::{AllocError, Global};
use std::io::{Read, Write};

/// The task of the command `replay`.
pub struct Replay {}

impl Task for Replay {
    ghost answers = { λ task. Replays };

    ghost begins = { Begins };

    fn answer(&self, alloc: Global, input: &[u8]) -> Result<Answer, Unfinished> {
        if !is_sealed(input) {
            return replayed(alloc, input);
        }
        match unsealed(alloc, input) {
            Ok(Ok(plain)) => replayed(alloc, plain.text.as_slice()),
            Ok(Err(wrong)) => whole_or_nothing(alloc, told_wrong(alloc, wrong)),
            Err(_) => Err(Unfinished {
                front: List::new(alloc),
            }),
        }
    }
}

/// The replay of lines without digests.
fn replayed(alloc: Global, lines: &[u8]) -> Result<Answer, Unfinished>
    ensures whole { IfOk result (IsAnswerOfReplay lines.now) }
    ensures front { IfErr result (λ u. IsFront BeginsReplay lines.now u.front) }
{
    let mut text = Vec::new(alloc);
    let ended = replay(alloc, lines, &mut text);
    let text = List::from_vec(text);
    match ended {
        Ok(ended) => Ok(Answer::Text {
            text,
            status: status_of(ended),
        }),
        Err(_) => Err(Unfinished { front: text }),
    }
}

/// What is written of a line whose digest is wrong.
fn told_wrong(alloc: Global, wrong: WrongDigest) -> Result<Answer, AllocError>
    ensures { IfOk result (λ a. a ≡ unreadable_for wrong) }
{
    let number = wrong.line;
    let line = format!(in alloc; "unreadable {number} WrongDigest\n")?;
    let mut text = Vec::new(alloc);
    text.extend_from_slice(line.as_bytes())?;
    Ok(Answer::Text {
        text: List::from_vec(text),
        status: Status::Unreadable,
    })
}

/// Reads an input to its end, and writes what its replay says: the answers of the machine's run over the events that the
/// lines say. Where no memory is left, the answers so far stand before the line that says so.
pub fn run_replay<R: Read, W: Write>(alloc: Global, reader: &mut R, writer: &mut W) -> Ending
    ensures { EndsTo Replays Begins (R.remaining reader.old) (W.contents writer.old) (W.contents writer.new) result }
{
    run_task(&Replay {}, alloc, reader, writer)
}

/// The status of a replay that ended.
fn status_of(ended: Ended) -> Status
    ensures { result ≡ ended_status ended }
{
    match ended {
        Ended::Done => Status::Done,
        Ended::Unreadable => Status::Unreadable,
    }
}
