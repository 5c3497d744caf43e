//! What the allocator says where a list of a job is asked for.
ghost use Rattle.std.specs.Prelude.{◌≡◌};
ghost use Rattle.agent_exchanges.specs.Saying.{is_headless, is_nothing, is_unknown, saying, with_heads};

use agent_core::Head;
use agent_documents::{read_head, read_until};

/// The texts of a list's headers, each empty where there is none.
#[derive(Clone, Copy)]
pub struct Heads<'a> {
    pub collector: &'a str,
    pub epoch: &'a str,
    pub number: &'a str,
    pub round: &'a str,
    pub age: &'a str,
    pub length: &'a str,
}

/// What the allocator says.
#[derive(Clone, Copy, PartialEq, Eq)]
pub enum Saying {
    /// The list of the body is of this head, and its round is open for certain up to this time.
    List(Head, u64),
    /// The collector holds nothing: it left.
    Gone,
    /// No collector has this name.
    Unknown,
    /// Something else, which is of no use.
    Other,
}

/// What an answer to a list that was asked for at a time says.
pub fn saying_of(at: u64, status: u16, heads: Heads<'_>, body: &[u8]) -> Saying
    ensures { result ≡ saying at status heads.entry.collector.now heads.entry.epoch.now heads.entry.number.now heads.entry.round.now heads.entry.age.now heads.entry.length.now body.now }
{
    if status == 404 && is_unknown(body) {
        return Saying::Unknown;
    }
    if status != 200 {
        return Saying::Other;
    }
    if is_headless(heads) && is_nothing(body) {
        return Saying::Gone;
    }
    with_heads(at, heads)
}

/// What a list with these headers says.
fn with_heads(at: u64, heads: Heads<'_>) -> Saying
    ensures { result ≡ with_heads at heads.entry.collector.now heads.entry.epoch.now heads.entry.number.now heads.entry.round.now heads.entry.age.now heads.entry.length.now }
{
    match read_head(heads.collector, heads.epoch, heads.number, heads.round) {
        Some(head) => match read_until(at, heads.age, heads.length) {
            Some(until) => Saying::List(head, until),
            None => Saying::Other,
        },
        None => Saying::Other,
    }
}

/// Whether a list names no collector.
fn is_headless(heads: Heads<'_>) -> bool
    ensures { result ≡ is_headless heads.entry.collector.now }
{
    heads.collector == ""
}

/// Whether a body is that of a refusal, since nobody has the name.
fn is_unknown(body: &[u8]) -> bool
    ensures { result ≡ is_unknown body.now }
{
    body == b"{\"refused\":\"UnknownCollector\"}".as_slice()
}

/// Whether a body is an empty list.
fn is_nothing(body: &[u8]) -> bool
    ensures { result ≡ is_nothing body.now }
{
    body == b"[]".as_slice()
}
