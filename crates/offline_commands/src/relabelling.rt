//! The command `relabel`: it applies relabelling rules to a label set.
ghost use Rattle.std.specs.Prelude.{◌≡◌, IfOk};
ghost use Rattle.relabel.specs.Compiling.{any_text};
ghost use Rattle.offline_commands.specs.Answer.{EndsTo, NoFront};
ghost use Rattle.offline_commands.specs.Relabelling.{Relabels, finding_status, told};

mod applying;
mod documents;
mod lines;

use crate::answer::{Answer, Unfinished, whole_or_nothing};
use crate::ending::{Ending, Status};
use crate::runner::{Task, run_task};
use crate::unreadable::Unreadable;
use documents::finding_in;
use json_values::parse;
use lines::text_of;
use lists::{List, Text};
use relabel::{Compiler, RegexCrate, RuleError};
use std::alloc::{AllocError, Global};
use std::io::{Read, Write};

/// The task of the command `relabel`, with what compiles the patterns of the rules.
#[derive(Drop)]
pub struct Relabel<'c, C> {
    compiler: &'c C,
}

impl<'c, C: Compiler> Task for Relabel<'c, C> {
    ghost answers = { λ task. Relabels C.too_big };

    ghost begins = { NoFront };

    fn answer(&self, alloc: Global, input: &[u8]) -> Result<Answer, Unfinished> {
        whole_or_nothing(alloc, answer_to(self.compiler, alloc, input))
    }
}

/// What is found in a document of labels and rules.
#[derive(Drop)]
pub enum Finding {
    /// The name of a label is no label name.
    BadLabelName,
    /// The number of the first rule that is refused, and why. The first rule has the number 1.
    RefusedRule(usize, RuleError),
    Kept {
        /// The labels behind the rules, as JSON.
        labels: Text,
        /// The text of the finished target's group, unless there is no address.
        target: Option<Text>,
    },
    /// The number of the rule that dropped the target.
    Dropped(usize),
}

/// Reads a document of labels and rules to its end, and writes what the rules make of the labels, which name or rule is
/// refused, or that the input is no such document.
pub fn run_relabel<R: Read, W: Write>(alloc: Global, reader: &mut R, writer: &mut W) -> Ending
    ensures { EndsTo (Relabels any_text) NoFront (R.remaining reader.old) (W.contents writer.old) (W.contents writer.new) result }
{
    run_relabel_by(&RegexCrate {}, alloc, reader, writer)
}

/// The same with a compiler of patterns. A pattern that the grammar reads is refused only where the compiler was asked and
/// said of it, or of its whole form, that it is too big.
pub fn run_relabel_by<C: Compiler, R: Read, W: Write>(
    compiler: &C,
    alloc: Global,
    reader: &mut R,
    writer: &mut W,
) -> Ending
    ensures { EndsTo (Relabels C.too_big) NoFront (R.remaining reader.old) (W.contents writer.old) (W.contents writer.new) result }
{
    run_task(&Relabel { compiler }, alloc, reader, writer)
}

fn answer_to<C: Compiler>(compiler: &C, alloc: Global, input: &[u8]) -> Result<Answer, AllocError>
    ensures { IfOk result (Relabels C.too_big input.now) }
{
    let Some(value) = parse(alloc, input)? else {
        return Ok(Answer::NotRead(Unreadable::NotJson));
    };
    match finding_in(compiler, alloc, &value)? {
        Some(finding) => tell(alloc, &finding),
        None => Ok(Answer::NotRead(Unreadable::Shape)),
    }
}

/// The answer that tells a finding.
fn tell(alloc: Global, finding: &Finding) -> Result<Answer, AllocError>
    ensures { IfOk result (λ answer. answer ≡ told finding.now) }
{
    let text = text_of(alloc, finding)?;
    Ok(Answer::Text {
        text: List::from_vec(text.into_bytes()),
        status: status_of(finding),
    })
}

fn status_of(finding: &Finding) -> Status
    ensures { result ≡ finding_status finding.now }
{
    match finding {
        Finding::BadLabelName | Finding::RefusedRule(..) => Status::Refused,
        Finding::Kept { .. } | Finding::Dropped(_) => Status::Done,
    }
}
