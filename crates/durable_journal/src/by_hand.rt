//! Journals that are sealed by hand.
ghost use Rattle.std.specs.Prelude.{◌≡◌, ◌∷◌, IfOk, IfSome, option_map};
ghost use Rattle.serde_json.specs.View.{view};
ghost use Rattle.replay_lines.specs.Configurations.{opened};
ghost use Rattle.sealed_lines.specs.Chains.{sealed, start};
ghost use Rattle.sealed_lines.specs.Lines.{HasNoFeed, lines_left};
ghost use Rattle.durable_journal.specs.ByHand.{IsSealedByHand, IsSealedFrom, filled, with_note};

use crate::configuring::marked_line;
use json_values::parse;
use lists::{List, Text};
use replay_lines::{Damage, resume};
use sealed_lines::{Chain, first_line, seal_line, without_digests};
use serde_json::{Value, put};
use std::alloc::{AllocError, Global};

/// The bytes of a file whose lines have the digests anew, from those of a journal with digests, without, or with wrong ones. Its first line
/// has then a member `sealed`, which says `by hand`, and empty lines are left out. Where the journal leads to no allocator: its first line
/// that is damaged.
pub fn sealed_by_hand(alloc: Global, journal: &[u8]) -> Result<Result<List<u8>, Damage>, AllocError>
    ensures { IfOk result (λ r. IfOk r (λ bytes. IsSealedByHand journal.now bytes)) }
{
    let plain = without_digests(alloc, journal)?;
    match resume(alloc, plain.as_slice())? {
        Ok(resumption) => {
            drop(resumption);
            sealed_anew(alloc, plain.as_slice())
        }
        Err(damage) => Ok(Err(damage)),
    }
}

fn sealed_anew(alloc: Global, plain: &[u8]) -> Result<Result<List<u8>, Damage>, AllocError>
    ensures { IfOk result (λ r. IfOk r (λ bytes. IsSealedFrom plain.now bytes)) }
{
    let (first, others) = first_line(plain);
    match noted_line(alloc, first)? {
        Some(line) => Ok(Ok(sealed_file(alloc, line.as_str().as_bytes(), others)?)),
        None => Ok(Err(Damage { line: 1 })),
    }
}

/// A first line, and the others that are not empty.
fn sealed_file(alloc: Global, first: &[u8], others: Option<&[u8]>) -> Result<List<u8>, AllocError>
    ensures { IfOk result (λ bytes. bytes ≡ sealed start (first.now ∷ filled (lines_left others.entry))) }
{
    let mut bytes = Vec::new(alloc);
    let mut chain = seal_line(alloc, Chain::start(), first, &mut bytes)?;
    let mut left = others;
    while let Some(text) = left {
        let (line, rest) = first_line(text);
        if !line.is_empty() {
            chain = seal_line(alloc, chain, line, &mut bytes)?;
        }
        left = rest;
    }
    Ok(List::from_vec(bytes))
}

/// The line of a document with the note that it was sealed by hand. It opens what the document opens.
fn noted_line(alloc: Global, document: &[u8]) -> Result<Option<Text>, AllocError>
    ensures opens { IfOk result (λ o. IfSome o (λ line. opened line ≡ opened document.now)) }
    ensures one_line { IfOk result (λ o. IfSome o (λ line. HasNoFeed line)) }
{
    let Some(value) = parse(alloc, document)? else {
        return Ok(None);
    };
    let Some(noted) = with_note(alloc, value)? else {
        return Ok(None);
    };
    marked_line(alloc, noted)
}

/// The object with the note as its member.
fn with_note(alloc: Global, value: Value) -> Result<Option<Value>, AllocError>
    ensures { IfOk result (λ o. option_map view o ≡ with_note (view value)) }
{
    match value {
        Value::Object(mut members) => {
            let note = Value::String(String::from_str(alloc, "by hand")?);
            put(&mut members, alloc, "sealed", note)?;
            Ok(Some(Value::Object(members)))
        }
        _ => Ok(None),
    }
}
