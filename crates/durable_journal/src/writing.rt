//! The lines of events.
ghost use Rattle.std.specs.Prelude.{◌≡◌, [], ◌∷◌, ◌++◌, IfOk, OnOk};
ghost use Rattle.fleet_events.specs.Writing.{event_text};
ghost use Rattle.durable_journal.specs.Events.{AreSaid, IsLineOf, event_lines};
ghost use Rattle.durable_journal.specs.Files.{bytes_of, chain_past};
ghost use Rattle.durable_journal.specs.Kept.{is_kept, kept_in};

use allocation_core::Answer;
use fleet_events::Event;
use journal_entries::Entry;
use lists::List;
use sealed_lines::{Chain, seal_line};
use std::alloc::{AllocError, Global};

/// Lines that are to be appended to a file at once.
#[derive(Drop)]
pub struct Lines {
    /// Each line with its digest, if it has one, and its line feed.
    pub bytes: List<u8>,
    /// The digest of the last line of the file then, where its lines have digests.
    pub chain: Option<Chain>,
}

/// The lines of the entries' events that were not refused, behind a line with this digest, or without digests.
pub fn journal_lines(
    alloc: Global,
    chain: Option<Chain>,
    entries: &[Entry],
) -> Result<Lines, AllocError>
    ensures form { IfOk result (λ l. l.bytes ≡ bytes_of chain (event_lines (kept_in entries.now))) }
    ensures chain { IfOk result (λ l. l.chain ≡ chain_past chain (event_lines (kept_in entries.now))) }
    ensures says { IfOk result (λ l. AreSaid (kept_in entries.now)) }
{
    let mut bytes = Vec::new(alloc);
    let mut last = chain;
    for entry in entries {
        if is_kept(&entry.answer) {
            last = add_event(alloc, last, &entry.event, &mut bytes)?;
        }
    }
    Ok(Lines {
        bytes: List::from_vec(bytes),
        chain: last,
    })
}

/// Whether an event that was answered so may have changed something.
fn is_kept(answer: &Answer) -> bool
    ensures { result ≡ is_kept answer.now }
{
    !matches!(answer, Answer::Not(_))
}

/// Adds the line of an event.
fn add_event(
    alloc: Global,
    chain: Option<Chain>,
    event: &Event,
    bytes: &mut Vec<u8>,
) -> Result<Option<Chain>, AllocError>
    ensures form { OnOk result (bytes.new.items ≡ bytes.old.items ++ bytes_of chain (event_text event.now ∷ [])) }
    ensures chain { IfOk result (λ c. c ≡ chain_past chain (event_text event.now ∷ [])) }
    ensures says { OnOk result (IsLineOf (event_text event.now) event.now) }
{
    let line = event.to_json(alloc)?;
    add_line(alloc, chain, line.as_str().as_bytes(), bytes)
}

/// Adds a line, with its digest if it is to have one.
fn add_line(
    alloc: Global,
    chain: Option<Chain>,
    line: &[u8],
    bytes: &mut Vec<u8>,
) -> Result<Option<Chain>, AllocError>
    ensures form { OnOk result (bytes.new.items ≡ bytes.old.items ++ bytes_of chain (line.now ∷ [])) }
    ensures chain { IfOk result (λ c. c ≡ chain_past chain (line.now ∷ [])) }
{
    match chain {
        Some(chain) => Ok(Some(seal_line(alloc, chain, line, bytes)?)),
        None => {
            bytes.extend_from_slice(line)?;
            bytes.push(b'\n')?;
            Ok(None)
        }
    }
}
