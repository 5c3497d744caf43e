//! The mark of a journal, by which its file is told from every other one.
ghost use Rattle.std.specs.Prelude.{◌≡◌, IfOk, nat_eq, option_map};
ghost use Rattle.std.specs.List.{list_all};
ghost use Rattle.serde_json.specs.View.{view};
ghost use Rattle.durable_journal.specs.Marks.{agrees, agrees_with_event, begins_event, begins_journal, behind_feed, has_event, has_history, is_begun, is_journal_text, marked as with_mark, torn_end};

use crate::recovering::settled;
use serde_json::{Value, put};
use std::alloc::{AllocError, Global};

/// The member with which the first line of a journal begins: no name comes before the empty one.
const MARK_NAME: &str = "";

const MARK: &str = "allocd journal";

/// The bytes with which the first line of a journal begins.
pub(crate) const MARK_TEXT: &[u8] = b"{\"\":\"allocd journal\"";

/// The member of the first line that a renewed allocator has.
const HISTORY: &[u8] = b"\"history\":{\"allocation\":";

/// The members with which the lines of events begin.
const BIN_PRICES: &[u8] = b"{\"bin_prices\":";

const COLLECTOR: &[u8] = b"{\"collector\":";

const EVENT: &[u8] = b"{\"event\":";

/// The object with the mark as its member.
pub(crate) fn marked(alloc: Global, document: Value) -> Result<Option<Value>, AllocError>
    ensures { IfOk result (λ o. option_map view o ≡ with_mark (view document)) }
{
    match document {
        Value::Object(mut members) => {
            let mark = Value::String(String::from_str(alloc, MARK)?);
            put(&mut members, alloc, MARK_NAME, mark)?;
            Ok(Some(Value::Object(members)))
        }
        _ => Ok(None),
    }
}

/// Whether a file of these bytes is a journal, or what a crash may have left of one: only then a torn line at its end may be cut off. A file
/// without a byte is one that is to begin. A first line that was written before there was a mark is told by an event behind it, or by a
/// history in it.
pub(crate) fn is_journal(bytes: &[u8]) -> bool
    ensures { result ≡ is_journal_text bytes.now }
{
    if !bytes.contains(&b'\n') {
        return is_first_begun(bytes);
    }
    begins_as_a_journal(bytes) && may_begin_an_event(torn(bytes))
}

fn begins_as_a_journal(bytes: &[u8]) -> bool
    ensures { result ≡ begins_journal bytes.now }
{
    bytes.starts_with(MARK_TEXT) || is_followed_by_an_event(bytes) || goes_on(bytes)
}

/// Whether these are no byte, or a beginning of a marked line.
fn is_first_begun(bytes: &[u8]) -> bool
    ensures { result ≡ is_begun bytes.now }
{
    match bytes.first() {
        Some(first) => *first == b'{' && may_begin(MARK_TEXT, bytes),
        None => true,
    }
}

/// What stands behind the last line feed.
fn torn(bytes: &[u8]) -> &[u8]
    ensures { result.now ≡ torn_end bytes.now }
{
    &bytes[settled(bytes)..]
}

/// Whether a whole line with an event stands behind the first line.
fn is_followed_by_an_event(bytes: &[u8]) -> bool
    ensures { result ≡ has_event bytes.now }
{
    match behind_first(bytes) {
        Some(rest) => rest.contains(&b'\n') && begins_with_an_event(rest),
        None => false,
    }
}

/// What stands behind the first line feed.
fn behind_first(bytes: &[u8]) -> Option<&[u8]>
    ensures { option_map (λ rest. rest.now) result ≡ behind_feed bytes.now }
{
    for place in 0..bytes.len() {
        if bytes[place] == b'\n' {
            return Some(&bytes[place + 1..]);
        }
    }
    None
}

/// Whether the first line has a history.
fn goes_on(bytes: &[u8]) -> bool
    ensures { result ≡ has_history bytes.now }
{
    for place in 0..bytes.len() {
        if bytes[place] == b'\n' {
            return false;
        }
        if bytes[place..].starts_with(HISTORY) {
            return true;
        }
    }
    false
}

fn begins_with_an_event(bytes: &[u8]) -> bool
    ensures { result ≡ begins_event bytes.now }
{
    bytes.starts_with(BIN_PRICES) || bytes.starts_with(COLLECTOR) || bytes.starts_with(EVENT)
}

fn may_begin_an_event(bytes: &[u8]) -> bool
    ensures { result ≡ agrees_with_event bytes.now }
{
    may_begin(BIN_PRICES, bytes) || may_begin(COLLECTOR, bytes) || may_begin(EVENT, bytes)
}

/// Whether the bytes begin as the front does, as far as both go, or with a part of it and then nothing but 0.
fn may_begin(front: &[u8], bytes: &[u8]) -> bool
    ensures { result ≡ agrees front.now bytes.now }
{
    let Some((wanted, front)) = front.split_first() else {
        return true;
    };
    let Some((found, rest)) = bytes.split_first() else {
        return true;
    };
    if *found == 0 {
        return are_zero(rest);
    }
    *wanted == *found && may_begin(front, rest)
}

fn are_zero(bytes: &[u8]) -> bool
    ensures { result ≡ list_all (λ b. nat_eq b 0) bytes.now }
{
    for byte in bytes {
        if *byte != 0 {
            return false;
        }
    }
    true
}
