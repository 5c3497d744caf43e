//! What became of a request, by its answer.
ghost use Rattle.std.specs.Prelude.{◌≡◌, IfOk};
ghost use Rattle.etcd_answers.specs.Verdicts.{claim_failed, claim_verdict, claimed, forget_failed, forget_verdict, forgotten, has_value, judged, kept_if, lacks_revision, remove_failed, remove_verdict, switch_verdict, write_failed, write_verdict};

use crate::answer::Answer;
use crate::found::Found;
use crate::response::Response;
use std::alloc::{AllocError, Global};

/// What became of a request.
#[derive(Clone, Copy, Debug, PartialEq, Eq)]
pub enum Verdict {
    /// It is done, now or by an earlier copy. A claim leads.
    Kept,
    /// The term does not lead, or somebody else writes here.
    Deposed,
    /// It may be done, now or later: the very same request is asked again.
    Unknown,
}

/// What became of a block that was to be written, or of a part of the next epoch.
pub fn write_verdict(answer: &Answer, term: &str, block: &[u8]) -> Verdict
    ensures { result ≡ write_verdict term.now block.now answer.now }
{
    match answer {
        Answer::Unknown => Verdict::Unknown,
        Answer::Told(told) => {
            if told.succeeded {
                Verdict::Kept
            } else {
                write_failed(told.responses.as_slice(), term, block)
            }
        }
    }
}

fn write_failed(responses: &[Response], term: &str, block: &[u8]) -> Verdict
    ensures { result ≡ write_failed term.now block.now responses.now }
{
    match responses {
        [leader, other] => judged(
            has_value(leader.found.as_slice(), term.as_bytes()),
            has_value(other.found.as_slice(), block),
        ),
        _ => Verdict::Unknown,
    }
}

/// What became of blocks that were to be removed, of which the first was created at a revision.
pub fn remove_verdict(answer: &Answer, term: &str, created: u64) -> Verdict
    ensures { result ≡ remove_verdict term.now created answer.now }
{
    match answer {
        Answer::Unknown => Verdict::Unknown,
        Answer::Told(told) => {
            if told.succeeded {
                Verdict::Kept
            } else {
                remove_failed(told.responses.as_slice(), term, created)
            }
        }
    }
}

fn remove_failed(responses: &[Response], term: &str, created: u64) -> Verdict
    ensures { result ≡ remove_failed term.now created responses.now }
{
    match responses {
        [leader, other] => judged(
            has_value(leader.found.as_slice(), term.as_bytes()),
            lacks_revision(other.found.as_slice(), created),
        ),
        _ => Verdict::Unknown,
    }
}

/// What became of the epoch behind one, which was to go on.
pub fn switch_verdict(
    alloc: Global,
    answer: &Answer,
    term: &str,
    going: u32,
) -> Result<Verdict, AllocError>
    ensures { IfOk result (λ v. v ≡ switch_verdict term.now going answer.now) }
{
    let next = going as u64 + 1;
    let next = format!(in alloc; "{next}")?;
    Ok(write_verdict(answer, term, next.as_bytes()))
}

/// What became of a claim.
pub fn claim_verdict(answer: &Answer, term: &str) -> Verdict
    ensures { result ≡ claim_verdict term.now answer.now }
{
    match answer {
        Answer::Unknown => Verdict::Unknown,
        Answer::Told(told) => {
            if told.succeeded {
                Verdict::Kept
            } else {
                claim_failed(told.responses.as_slice(), term)
            }
        }
    }
}

fn claim_failed(responses: &[Response], term: &str) -> Verdict
    ensures { result ≡ claim_failed term.now responses.now }
{
    match responses {
        [leader] => claimed(has_value(leader.found.as_slice(), term.as_bytes())),
        _ => Verdict::Unknown,
    }
}

/// What became of an epoch that was to be forgotten.
pub fn forget_verdict(answer: &Answer, term: &str) -> Verdict
    ensures { result ≡ forget_verdict term.now answer.now }
{
    match answer {
        Answer::Unknown => Verdict::Unknown,
        Answer::Told(told) => {
            if told.succeeded {
                Verdict::Kept
            } else {
                forget_failed(told.responses.as_slice(), term)
            }
        }
    }
}

fn forget_failed(responses: &[Response], term: &str) -> Verdict
    ensures { result ≡ forget_failed term.now responses.now }
{
    match responses {
        [leader] => forgotten(has_value(leader.found.as_slice(), term.as_bytes())),
        _ => Verdict::Unknown,
    }
}

/// Whether the key that was read has this value. None where more than one was found.
pub fn has_value(found: &[Found], bytes: &[u8]) -> Option<bool>
    ensures { result ≡ has_value bytes.now found.now }
{
    match found {
        [] => Some(false),
        [only] => Some(only.value.as_slice() == bytes),
        _ => None,
    }
}

/// Whether the key that was read is not the one that was created at this revision. None where more than one was found.
fn lacks_revision(found: &[Found], revision: u64) -> Option<bool>
    ensures { result ≡ lacks_revision revision found.now }
{
    match found {
        [] => Some(true),
        [only] => Some(only.created != revision),
        _ => None,
    }
}

/// By whether the term leads, and whether what was to be done is done.
fn judged(leads: Option<bool>, done: Option<bool>) -> Verdict
    ensures { result ≡ judged leads done }
{
    match leads {
        Some(leads) => match done {
            Some(done) => kept_if(leads && done),
            None => Verdict::Unknown,
        },
        None => Verdict::Unknown,
    }
}

fn kept_if(kept: bool) -> Verdict
    ensures { result ≡ kept_if kept }
{
    if kept {
        Verdict::Kept
    } else {
        Verdict::Deposed
    }
}

fn claimed(leads: Option<bool>) -> Verdict
    ensures { result ≡ claimed leads }
{
    match leads {
        Some(leads) => kept_if(leads),
        None => Verdict::Unknown,
    }
}

fn forgotten(leads: Option<bool>) -> Verdict
    ensures { result ≡ forgotten leads }
{
    match leads {
        Some(false) => Verdict::Deposed,
        _ => Verdict::Unknown,
    }
}
