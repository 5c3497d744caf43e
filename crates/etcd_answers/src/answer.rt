//! Answers to transactions.
ghost use Rattle.std.specs.Prelude.{◌≡◌, IfOk};
ghost use Rattle.serde_json.specs.View.{view};
ghost use Rattle.etcd_answers.specs.Answers.{answer_said, responses_in, succeeded_in, told_by, told_in, told_of};
ghost use Rattle.etcd_answers.specs.Verdicts.{found_at, found_by};

use crate::found::Found;
use crate::response::Response;
use json_values::{list_of, parse};
use lists::List;
use serde_json::Value;
use std::alloc::{AllocError, Global};

/// What a transaction answered.
#[derive(Debug, Drop)]
pub struct Told {
    pub succeeded: bool,
    pub responses: List<Response>,
}

/// An answer to a transaction.
#[derive(Debug, Drop)]
pub enum Answer {
    /// It is not known what became of it, if anything.
    Unknown,
    Told(Told),
}

impl Answer {
    /// The keys that the operation at a place found. Of a look: who leads, which epoch goes on, the next blocks, the last that was read. Of a request that
    /// did not succeed: first who leads.
    pub fn found(&self, place: usize) -> &[Found]
        ensures { result.now ≡ found_at place self.now }
    {
        match self {
            Answer::Unknown => &[],
            Answer::Told(told) => found_by(told.responses.as_slice(), place),
        }
    }
}

fn found_by(responses: &[Response], place: usize) -> &[Found]
    ensures { result.now ≡ found_by place responses.now }
{
    match responses.get(place) {
        Some(response) => response.found.as_slice(),
        None => &[],
    }
}

/// What an answer to a transaction says.
pub fn read_answer(alloc: Global, status: u16, body: &[u8]) -> Result<Answer, AllocError>
    ensures { IfOk result (λ a. a ≡ answer_said status body.now) }
{
    if status != 200 {
        return Ok(Answer::Unknown);
    }
    match told_by(alloc, body)? {
        Some(told) => Ok(Answer::Told(told)),
        None => Ok(Answer::Unknown),
    }
}

fn told_by(alloc: Global, body: &[u8]) -> Result<Option<Told>, AllocError>
    ensures { IfOk result (λ o. o ≡ told_by body.now) }
{
    match parse(alloc, body)? {
        Some(value) => told_in(alloc, &value),
        None => Ok(None),
    }
}

fn told_in(alloc: Global, value: &Value) -> Result<Option<Told>, AllocError>
    ensures { IfOk result (λ o. o ≡ told_in (view value.now)) }
{
    match succeeded_in(value) {
        Some(succeeded) => told_of(alloc, value, succeeded),
        None => Ok(None),
    }
}

fn told_of(alloc: Global, value: &Value, succeeded: bool) -> Result<Option<Told>, AllocError>
    ensures { IfOk result (λ o. o ≡ told_of succeeded (view value.now)) }
{
    match responses_in(alloc, value)? {
        Some(responses) => Ok(Some(Told {
            succeeded,
            responses,
        })),
        None => Ok(None),
    }
}

fn responses_in(alloc: Global, value: &Value) -> Result<Option<List<Response>>, AllocError>
    ensures { IfOk result (λ o. o ≡ responses_in (view value.now)) }
{
    match value.get("responses") {
        Some(responses) => list_of(alloc, responses),
        None => Ok(None),
    }
}

/// Whether it succeeded, which is absent where it did not.
fn succeeded_in(value: &Value) -> Option<bool>
    ensures { result ≡ succeeded_in (view value.now) }
{
    match value.get("succeeded") {
        Some(succeeded) => succeeded.as_bool(),
        None => Some(false),
    }
}
