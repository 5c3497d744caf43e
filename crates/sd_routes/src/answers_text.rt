//! How the allocator's answers are told.
ghost use Rattle.std.specs.Prelude.{◌≡◌, IfOk, OnOk, string_bytes, ◌++◌};
ghost use Rattle.sd_routes.specs.AnswerTexts.{answer_text, answers_text, lines_text, more_lines, quoted_line};

use fleet_events::{Answer, Round};
use std::alloc::{AllocError, Global};

/// The object that tells an answer of the allocator by its line.
pub(crate) fn answer_text(alloc: Global, answer: &Answer) -> Result<String, AllocError>
    ensures { IfOk result (λ t. string_bytes t ≡ answer_text answer.now) }
{
    let front = match answer {
        Answer::Not(_) => "{\"refused\":\"",
        _ => "{\"answer\":\"",
    };
    let line = answer.line(alloc)?;
    let mut text = String::from_str(alloc, front)?;
    text.push_str(line.as_str())?;
    text.push_str("\"}")?;
    Ok(text)
}

/// The object that tells some answers by their lines, and the round that is open.
pub(crate) fn answers_text(
    alloc: Global,
    answers: &[Answer],
    round: Round,
) -> Result<String, AllocError>
    ensures { IfOk result (λ t. string_bytes t ≡ answers_text answers.now round) }
{
    let mut text = String::from_str(alloc, "{\"answers\":[")?;
    push_lines(alloc, &mut text, answers)?;
    text.push_str("],\"open\":")?;
    let round = format!(in alloc; "{round}")?;
    text.push_str(round.as_str())?;
    text.push_str("}")?;
    Ok(text)
}

fn push_lines(alloc: Global, text: &mut String, answers: &[Answer]) -> Result<(), AllocError>
    ensures { OnOk result (string_bytes text.new ≡ string_bytes text.old ++ lines_text answers.now) }
{
    match answers.split_first() {
        Some((first, others)) => {
            push_line(alloc, text, first)?;
            push_more(alloc, text, others)
        }
        None => Ok(()),
    }
}

/// Answers behind another one.
fn push_more(alloc: Global, text: &mut String, answers: &[Answer]) -> Result<(), AllocError>
    ensures { OnOk result (string_bytes text.new ≡ string_bytes text.old ++ more_lines answers.now) }
{
    for answer in answers {
        text.push_str(",")?;
        push_line(alloc, text, answer)?;
    }
    Ok(())
}

fn push_line(alloc: Global, text: &mut String, answer: &Answer) -> Result<(), AllocError>
    ensures { OnOk result (string_bytes text.new ≡ string_bytes text.old ++ quoted_line answer.now) }
{
    let line = answer.line(alloc)?;
    text.push_str("\"")?;
    text.push_str(line.as_str())?;
    text.push_str("\"")
}
