//! A part of a journal.
ghost use Rattle.std.specs.Prelude.{◌≡◌, IfOk, drop, take};

use journal_entries::Entry;
use lists::{List, copies};
use std::alloc::{AllocError, Global};

/// Copies of the entries from a position on, at most so many.
pub(crate) fn entries(
    alloc: Global,
    journal: &[Entry],
    from: usize,
    most: usize,
) -> Result<List<Entry>, AllocError>
    ensures { IfOk result (λ l. l ≡ take most (drop from journal.now)) }
{
    let rest = journal.get(from..).unwrap_or(&[]);
    let entries = copies(alloc, rest.get(..most).unwrap_or(rest))?;
    Ok(List::from_vec(entries))
}
