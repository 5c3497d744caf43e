//! The command `plan`: it finds a best plan for an instance document, with the prices that prove it.
ghost use Rattle.std.specs.Prelude.{◌≡◌, IfOk};
ghost use Rattle.offline_commands.specs.Answer.{EndsTo, NoFront};
ghost use Rattle.offline_commands.specs.Plan.{Plans, IsPlanOf};

use crate::answer::{Answer, Unfinished, whole_or_nothing};
use crate::ending::{Ending, Status};
use crate::runner::{Task, run_task};
use crate::unreadable::Unreadable;
use assign_engine::solve;
use lists::List;
use price_certificate::{DocumentError, Instance, read_instance, write_document};
use std::alloc::{AllocError, Global};
use std::io::{Read, Write};

/// The task of the command `plan`.
pub struct Plan {}

impl Task for Plan {
    ghost answers = { λ task. Plans };

    ghost begins = { NoFront };

    fn answer(&self, alloc: Global, input: &[u8]) -> Result<Answer, Unfinished> {
        whole_or_nothing(alloc, answer_to(alloc, input))
    }
}

/// Reads an instance document to its end, and writes the document of the instance and a certified plan for it, or that the
/// input is no such document.
pub fn run_plan<R: Read, W: Write>(alloc: Global, reader: &mut R, writer: &mut W) -> Ending
    ensures { EndsTo Plans NoFront (R.remaining reader.old) (W.contents writer.old) (W.contents writer.new) result }
{
    run_task(&Plan {}, alloc, reader, writer)
}

fn answer_to(alloc: Global, input: &[u8]) -> Result<Answer, AllocError>
    ensures { IfOk result (Plans input.now) }
{
    match read_instance(alloc, input) {
        Ok(instance) => Ok(Answer::Text {
            text: planned(alloc, &instance)?,
            status: Status::Done,
        }),
        Err(DocumentError::NotJson) => Ok(Answer::NotRead(Unreadable::NotJson)),
        Err(DocumentError::Shape) => Ok(Answer::NotRead(Unreadable::Shape)),
        Err(DocumentError::Memory) => Err(AllocError),
    }
}

/// The document of the instance and a plan for it, and a line feed.
fn planned(alloc: Global, instance: &Instance) -> Result<List<u8>, AllocError>
    ensures { IfOk result (λ text. IsPlanOf instance.now text) }
{
    let (plan, _work) = solve(alloc, instance)?;
    let mut text = write_document(alloc, instance, &plan)?;
    text.push(b'\n')?;
    Ok(List::from_vec(text))
}
