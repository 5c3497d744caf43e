//! What answers say.
use crate::parts::{first, large, number, status};
use etcd_answers::{
    Answer, Found, Verdict, claim_verdict, forget_verdict, read_answer, read_granted, read_lease,
    remove_verdict, switch_verdict, write_verdict,
};
use std::alloc::{AllocError, Global};
use std::str;

/// How many operations a look has at the most.
const MOST_OPERATIONS: usize = 4;

/// A lease that was granted, as `STATUS | BODY`.
pub(crate) fn granted(alloc: Global, text: &str) -> Result<String, AllocError> {
    let (status, body) = status(text);
    match read_granted(alloc, status, body.as_bytes())? {
        Some(granted) => format!(in alloc; "{} for {} s", granted.lease, granted.seconds),
        None => String::from_str(alloc, "unknown"),
    }
}

/// How a lease is, as `LEASE | STATUS | BODY`.
pub(crate) fn lease(alloc: Global, text: &str) -> Result<String, AllocError> {
    let (lease, rest) = large(text);
    let (status, body) = status(rest);
    let lease = read_lease(alloc, lease, status, body.as_bytes())?;
    format!(in alloc; "{lease:?}")
}

/// What a transaction found, as `STATUS | BODY`: for each operation the keys with the revisions of their creation and their values.
pub(crate) fn told(alloc: Global, text: &str) -> Result<String, AllocError> {
    let (status, body) = status(text);
    match read_answer(alloc, status, body.as_bytes()) {
        Ok(answer) => written(alloc, &answer),
        Err(error) => Err(error),
    }
}

fn written(alloc: Global, answer: &Answer) -> Result<String, AllocError> {
    let mut text = String::from_str(alloc, beginning(answer))?;
    for place in 0..MOST_OPERATIONS {
        push_found(&mut text, answer.found(place))?;
    }
    Ok(text)
}

fn beginning(answer: &Answer) -> &'static str {
    match answer {
        Answer::Unknown => "unknown",
        Answer::Told(told) => {
            if told.succeeded {
                "succeeded"
            } else {
                "failed"
            }
        }
    }
}

fn push_found(text: &mut String, found: &[Found]) -> Result<(), AllocError> {
    text.push_str(" [")?;
    for one in found {
        push_one(text, one)?;
    }
    text.push_str("]")
}

fn push_one(text: &mut String, found: &Found) -> Result<(), AllocError> {
    text.push_str("(")?;
    text.push_str(shown(found.key.as_slice()))?;
    text.push_str(" at ")?;
    push_number(text, found.created)?;
    text.push_str(": ")?;
    text.push_str(shown(found.value.as_slice()))?;
    text.push_str(")")
}

fn push_number(text: &mut String, number: u64) -> Result<(), AllocError> {
    let number = format!(in *text.allocator(); "{number}")?;
    text.push_str(number.as_str())
}

fn shown(bytes: &[u8]) -> &str {
    str::from_utf8(bytes).unwrap_or("?")
}

/// What became of a request, as `KIND | TERM | .. | STATUS | BODY`.
pub(crate) fn verdict(alloc: Global, text: &str) -> Result<String, AllocError> {
    let (kind, rest) = first(text);
    let (term, rest) = first(rest);
    let verdict = match kind {
        "write" => written_block(alloc, term, rest),
        "remove" => removed(alloc, term, rest),
        "switch" => switched(alloc, term, rest),
        "claim" => claimed(alloc, term, rest),
        _ => forgotten(alloc, term, rest),
    };
    let verdict = verdict?;
    format!(in alloc; "{verdict:?}")
}

fn answered(alloc: Global, text: &str) -> Result<Answer, AllocError> {
    let (status, body) = status(text);
    read_answer(alloc, status, body.as_bytes())
}

/// As `BLOCK | STATUS | BODY`.
fn written_block(alloc: Global, term: &str, text: &str) -> Result<Verdict, AllocError> {
    let (block, rest) = first(text);
    match answered(alloc, rest) {
        Ok(answer) => Ok(write_verdict(&answer, term, block.as_bytes())),
        Err(error) => Err(error),
    }
}

/// As `CREATED | STATUS | BODY`.
fn removed(alloc: Global, term: &str, text: &str) -> Result<Verdict, AllocError> {
    let (created, rest) = large(text);
    match answered(alloc, rest) {
        Ok(answer) => Ok(remove_verdict(&answer, term, created)),
        Err(error) => Err(error),
    }
}

/// As `GOING | STATUS | BODY`.
fn switched(alloc: Global, term: &str, text: &str) -> Result<Verdict, AllocError> {
    let (going, rest) = number(text);
    match answered(alloc, rest) {
        Ok(answer) => switch_verdict(alloc, &answer, term, going),
        Err(error) => Err(error),
    }
}

/// As `STATUS | BODY`.
fn claimed(alloc: Global, term: &str, text: &str) -> Result<Verdict, AllocError> {
    match answered(alloc, text) {
        Ok(answer) => Ok(claim_verdict(&answer, term)),
        Err(error) => Err(error),
    }
}

/// As `STATUS | BODY`.
fn forgotten(alloc: Global, term: &str, text: &str) -> Result<Verdict, AllocError> {
    match answered(alloc, text) {
        Ok(answer) => Ok(forget_verdict(&answer, term)),
        Err(error) => Err(error),
    }
}
