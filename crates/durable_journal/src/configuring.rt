//! The first line of a journal.
ghost use Rattle.std.specs.Prelude.{◌≡◌, IfOk, IfSome, None, Some, ◌||◌, if◌then◌else◌, nat_eq, not, option_and_then, true};
ghost use Rattle.std.specs.List.{list_any, starts_with};
ghost use Rattle.json_values.specs.Texts.{is_line_feed, json_of};
ghost use Rattle.serde_json.specs.View.{view};
ghost use Rattle.replay_lines.specs.Configurations.{opened};
ghost use Rattle.durable_journal.specs.Configured.{IsLineGiven};
ghost use Rattle.sealed_lines.specs.Lines.{HasNoFeed};
ghost use Rattle.durable_journal.specs.Marks.{SaysMarked, mark_text, marked as with_mark};

use crate::marking::{MARK_TEXT, marked};
use json_values::{parse, text_of};
use lists::Text;
use serde_json::Value;
use std::alloc::{AllocError, Global};

/// The document of a configuration as one line of compact JSON with the mark of a journal, without its line feed. It opens what the
/// document opens, which may be nothing; a document that is no object has no line. A number with a fraction or an exponent may stand in
/// members that are not read; a text in which such a number were written with a line feed is not given.
pub fn configuration_line(alloc: Global, document: &[u8]) -> Result<Option<Text>, AllocError>
    ensures opens { IfOk result (λ o. IfSome o (λ line. opened line ≡ opened document.now)) }
    ensures one_line { IfOk result (λ o. IfSome o (λ line. HasNoFeed line)) }
    ensures begins { IfOk result (λ o. IfSome o (λ line. starts_with nat_eq line mark_text ≡ true)) }
    ensures given { IfOk result (IsLineGiven (option_and_then with_mark (json_of document.now))) }
{
    match parse(alloc, document)? {
        Some(value) => marked_line(alloc, value),
        None => Ok(None),
    }
}

/// The line of an object with the mark.
pub(crate) fn marked_line(alloc: Global, document: Value) -> Result<Option<Text>, AllocError>
    ensures says { IfOk result (λ o. IfSome o (SaysMarked (view document))) }
    ensures one_line { IfOk result (λ o. IfSome o (λ line. HasNoFeed line)) }
    ensures begins { IfOk result (λ o. IfSome o (λ line. starts_with nat_eq line mark_text ≡ true)) }
    ensures given { IfOk result (IsLineGiven (with_mark (view document))) }
{
    let Some(marked) = marked(alloc, document)? else {
        return Ok(None);
    };
    Ok(first_line(text_of(alloc, &marked)?))
}

/// The text, if it has no line feed and begins with the mark.
fn first_line(text: Text) -> Option<Text>
    ensures { result ≡ (if list_any is_line_feed text || not (starts_with nat_eq text mark_text) then None else Some text) }
{
    let bytes = text.as_str().as_bytes();
    if bytes.contains(&b'\n') || !bytes.starts_with(MARK_TEXT) {
        return None;
    }
    Some(text)
}
