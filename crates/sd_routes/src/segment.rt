//! The segment of a path that stands for a job or a collector.
ghost use Rattle.std.specs.Prelude.{◌≡◌, IfOk, map};
ghost use Rattle.form_urlencoded.specs.Form.{plus_to_space};
ghost use Rattle.percent_encoding.specs.Percent.{percent_decode};
ghost use Rattle.sd_routes.specs.Segments.{past_slash, up_to_slash, second_segment, text_from, text_in};

use lists::Text;
use percent_encoding::{DecodeError, percent_decode};
use std::alloc::{AllocError, Global};

/// The second segment of a path: what stands between its second slash and the next one, or the end.
pub(crate) fn second_segment(path: &str) -> &str
    ensures { result.now ≡ second_segment path.now }
{
    up_to_slash(past_slash(past_slash(path)))
}

fn past_slash(text: &str) -> &str
    ensures { result.now ≡ past_slash text.now }
{
    match text.split_once('/') {
        Some((_, rest)) => rest,
        None => "",
    }
}

fn up_to_slash(text: &str) -> &str
    ensures { result.now ≡ up_to_slash text.now }
{
    match text.split_once('/') {
        Some((front, _)) => front,
        None => text,
    }
}

/// The text that a segment stands for, where that is UTF-8: it is percent-decoded, and a plus sign is a blank.
pub(crate) fn decoded(alloc: Global, segment: &str) -> Result<Option<Text>, AllocError>
    ensures { IfOk result (λ text. text ≡ text_in segment.now) }
{
    let escaped = with_blanks(alloc, segment.as_bytes())?;
    unescaped(alloc, escaped.as_slice())
}

/// The bytes with a blank in place of each plus sign.
fn with_blanks(alloc: Global, bytes: &[u8]) -> Result<Vec<u8>, AllocError>
    ensures { IfOk result (λ blanks. blanks.items ≡ map plus_to_space bytes.now) }
{
    bytes
        .iter()
        .map(|&byte| if byte == b'+' { b' ' } else { byte })
        .collect(alloc)
}

/// The text that bytes stand for, percent-decoded, where that is UTF-8.
#[tactic(auto, using(crate::proofs::Texts::text_from_valid, crate::proofs::Texts::text_from_broken))]
fn unescaped(alloc: Global, escaped: &[u8]) -> Result<Option<Text>, AllocError>
    ensures { IfOk result (λ text. text ≡ text_from (percent_decode escaped.now)) }
{
    match percent_decode(escaped).decode_utf8(alloc) {
        Ok(text) => Ok(Some(Text::from_string(text.into_owned(alloc)?))),
        Err(DecodeError::OutOfMemory) => Err(AllocError),
        Err(DecodeError::Utf8(_)) => Ok(None),
    }
}
