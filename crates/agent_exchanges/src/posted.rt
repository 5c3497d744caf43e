//! What came of a list of reports that was posted.
ghost use Rattle.std.specs.Prelude.{◌≡◌, IfOk, option_map};
ghost use Rattle.serde_json.specs.View.{view, items_view};
ghost use Rattle.agent_exchanges.specs.Posted.{answer_over, answers_in, is_over, posted_by, posted_in, posted_said, text_over};

use agent_turns::Posted;
use json_values::parse;
use serde_json::Value;
use std::alloc::{AllocError, Global};

/// What an answer to a list of reports says.
pub fn read_posted(alloc: Global, status: u16, body: &[u8]) -> Result<Posted, AllocError>
    ensures { IfOk result (λ p. p ≡ posted_said status body.now) }
{
    match status {
        200 => posted_in(alloc, body),
        409 => Ok(Posted::Over),
        _ => Ok(Posted::Unknown),
    }
}

/// What answers say, one to each report.
fn posted_in(alloc: Global, body: &[u8]) -> Result<Posted, AllocError>
    ensures { IfOk result (λ p. p ≡ posted_in body.now) }
{
    match parse(alloc, body)? {
        Some(value) => Ok(posted_by(&value)),
        None => Ok(Posted::Unknown),
    }
}

fn posted_by(value: &Value) -> Posted
    ensures { result ≡ posted_by (view value.now) }
{
    match answers_in(value) {
        Some(answers) if is_over(answers) => Posted::Over,
        Some(_) => Posted::Answered,
        None => Posted::Unknown,
    }
}

fn answers_in(value: &Value) -> Option<&[Value]>
    ensures { option_map (λ vs. items_view vs.now) result ≡ answers_in (view value.now) }
{
    Some(value.get("answers")?.as_array()?.as_slice())
}

/// Whether one of the answers says that the list or its round is over.
fn is_over(answers: &[Value]) -> bool
    ensures { result ≡ is_over (items_view answers.now) }
{
    for answer in answers {
        if answer_over(answer) {
            return true;
        }
    }
    false
}

fn answer_over(answer: &Value) -> bool
    ensures { result ≡ answer_over (view answer.now) }
{
    match answer.as_str() {
        Some(text) => text_over(text.as_bytes()),
        None => false,
    }
}

fn text_over(text: &[u8]) -> bool
    ensures { result ≡ text_over text.now }
{
    text.starts_with(b"NotTaken ")
        || text.starts_with(b"RoundClosed ")
        || text.starts_with(b"RoundNotOpen ")
        || text.starts_with(b"UnknownCollector")
}
