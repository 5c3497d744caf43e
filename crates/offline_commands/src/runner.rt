//! The one way in which every command reads, answers and ends.
ghost use Rattle.std.specs.Prelude.{◌≡◌, ◌≤◌, List, ℕ, IfOk, IfErr, length};
ghost use Rattle.offline_commands.specs.declared.answer.Answer.{Answer};
ghost use Rattle.offline_commands.specs.Reading.{most_input};
ghost use Rattle.offline_commands.specs.Answer.{IsFront, EndsAs, EndsTo};

use crate::answer::{Answer, Unfinished};
use crate::ending::{Ending, Stop};
use crate::input::{Input, read_input};
use crate::output::{write_answer, write_stop};
use crate::unreadable::Unreadable;
use std::alloc::Global;
use std::io::{Read, Write};

/// What a command does with an input. Contracts see which answers it may give with its options to an input that is not too long, and
/// which fronts of an answer may be there when memory ends.
pub trait Task: Sized {
    ghost answers: { Self → List ℕ → Answer → Type 0 };

    ghost begins: { List ℕ → List ℕ → Type 0 };

    fn answer(&self, alloc: Global, input: &[u8]) -> Result<Answer, Unfinished>
        ensures whole { IfOk result (answers self.now input.now) }
        ensures front { IfErr result (λ u. IsFront begins input.now u.front) };
}

/// Reads an input to its end, writes the task's answer to it, and gives how that ended.
pub fn run_task<T: Task, R: Read, W: Write>(
    task: &T,
    alloc: Global,
    reader: &mut R,
    writer: &mut W,
) -> Ending
    ensures { EndsTo (T.answers task.now) T.begins (R.remaining reader.old) (W.contents writer.old) (W.contents writer.new) result }
{
    match read_input(alloc, reader) {
        Ok(Input::Whole(bytes)) => answer_to(task, alloc, bytes.as_slice(), writer),
        Ok(Input::TooLong) => write_answer(writer, &Answer::NotRead(Unreadable::TooLong)),
        Err(stop) => write_stop(writer, &[], stop),
    }
}

/// Writes the task's answer to an input that is not too long.
fn answer_to<T: Task, W: Write>(task: &T, alloc: Global, input: &[u8], writer: &mut W) -> Ending
    ensures { length input.now ≤ most_input → EndsAs (T.answers task.now) T.begins input.now (W.contents writer.old) (W.contents writer.new) result }
{
    match task.answer(alloc, input) {
        Ok(answer) => write_answer(writer, &answer),
        Err(unfinished) => write_stop(writer, unfinished.front.as_slice(), Stop::Memory),
    }
}
