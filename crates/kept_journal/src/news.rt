//! What is to be written of a journal.
ghost use Rattle.std.specs.Prelude.{◌≡◌, IfOk};
ghost use Rattle.kept_journal.specs.Written.{AreLinesOf};

use durable_journal::{Lines, journal_lines};
use journal_entries::Entry;
use sealed_lines::Chain;
use std::alloc::{AllocError, Global};

/// What is to be written of a journal: the lines of the entries that come next. What was refused has none.
#[derive(Drop)]
pub struct News {
    pub(crate) entries: usize,
    pub(crate) lines: Lines,
}

impl News {
    /// The lines of these entries, behind a line with this digest, or without digests.
    pub(crate) fn of(
        alloc: Global,
        chain: Option<Chain>,
        entries: &[Entry],
    ) -> Result<News, AllocError>
        ensures { IfOk result (AreLinesOf chain entries.now) }
    {
        let lines = journal_lines(alloc, chain, entries)?;
        Ok(News {
            entries: entries.len(),
            lines,
        })
    }

    /// How many entries there are.
    pub fn entries(&self) -> usize
        ensures { result ≡ self.now.entries }
    {
        self.entries
    }

    /// How many bytes their lines have.
    pub fn bytes(&self) -> u64 {
        self.lines.bytes.len() as u64
    }
}
