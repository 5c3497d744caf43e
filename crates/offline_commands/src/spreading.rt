//! The command `plan --spread`: it finds caps that even out what collectors have and the best plan within them, with what proves both.
ghost use Rattle.std.specs.Prelude.{◌≡◌, IfOk};
ghost use Rattle.offline_commands.specs.Answer.{EndsTo, NoFront};
ghost use Rattle.offline_commands.specs.Spreading.{Spreads, IsSpreadOf};

use crate::answer::{Answer, Unfinished, whole_or_nothing};
use crate::ending::{Ending, Status};
use crate::runner::{Task, run_task};
use crate::unreadable::Unreadable;
use command_words::SpreadOptions;
use lists::List;
use price_certificate::{DocumentError, Instance, read_instance};
use spread_certificate::write_spread_document;
use spread_engine::spread_plan;
use std::alloc::{AllocError, Global};
use std::io::{Read, Write};

/// The task of the command `plan --spread`.
#[derive(Drop)]
pub struct Spreading {
    options: SpreadOptions,
}

impl Task for Spreading {
    ghost answers = { λ task. Spreads task.options };

    ghost begins = { NoFront };

    fn answer(&self, alloc: Global, input: &[u8]) -> Result<Answer, Unfinished> {
        whole_or_nothing(alloc, answer_to(alloc, self.options, input))
    }
}

/// Reads an instance document to its end, and writes the document of the instance and a spread for it in which the judge finds no
/// fault, or that the input is no such document.
pub fn run_spread<R: Read, W: Write>(
    alloc: Global,
    options: SpreadOptions,
    reader: &mut R,
    writer: &mut W,
) -> Ending
    ensures { EndsTo (Spreads options) NoFront (R.remaining reader.old) (W.contents writer.old) (W.contents writer.new) result }
{
    run_task(&Spreading { options }, alloc, reader, writer)
}

fn answer_to(alloc: Global, options: SpreadOptions, input: &[u8]) -> Result<Answer, AllocError>
    ensures { IfOk result (Spreads options input.now) }
{
    match read_instance(alloc, input) {
        Ok(instance) => Ok(Answer::Text {
            text: spread_of(alloc, options, &instance)?,
            status: Status::Done,
        }),
        Err(DocumentError::NotJson) => Ok(Answer::NotRead(Unreadable::NotJson)),
        Err(DocumentError::Shape) => Ok(Answer::NotRead(Unreadable::Shape)),
        Err(DocumentError::Memory) => Err(AllocError),
    }
}

/// The document of the instance and a spread for it, and a line feed.
fn spread_of(
    alloc: Global,
    options: SpreadOptions,
    instance: &Instance,
) -> Result<List<u8>, AllocError>
    ensures { IfOk result (IsSpreadOf options instance.now) }
{
    let spread = spread_plan(
        alloc,
        instance,
        options.jobs,
        options.slack,
        &[],
        options.most_moves,
    )?;
    let mut text = write_spread_document(alloc, instance, &spread)?;
    text.push(b'\n')?;
    Ok(List::from_vec(text))
}
