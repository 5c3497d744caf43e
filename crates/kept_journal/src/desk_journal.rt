//! The journal of a desk in a file.
ghost use Rattle.std.specs.Prelude.{◌≡◌, [], IfOk, IsTrue};
ghost use Rattle.journal_entries.specs.Legal.{IsLegal};
ghost use Rattle.kept_journal.specs.Keeping.{IsOf, MeansKept};
ghost use Rattle.kept_journal.specs.Written.{AreNews};

use crate::durable::Durable;
use crate::journal_file::JournalFile;
use crate::journal_name::JournalName;
use crate::news::News;
use alloc_desk::{Closed, Desk, Front, Pass};
use durable_journal::Device;
use std::alloc::{AllocError, Global};
use std::io;
use std::marker::Model;
use std::sync::Wait;
use std::sync::ledger::Ledger;

/// How many entries are written at once at most.
const MOST_AT_ONCE: usize = 4_096;

/// The journal of a desk in a file: behind what the file had when the desk was opened stand the lines of the desk's first entries. Contracts see
/// these entries.
#[derive(Drop)]
pub struct DeskJournal<F: Device, N: JournalName> {
    file: JournalFile<F>,
    /// What was seen of the desk's journal, and how many entries of it are in the file.
    front: Front<N>,
    entries: u64,
    /// Whether the device keeps all that was written.
    is_kept: bool,
}

impl<F: Device, N: JournalName> Model for DeskJournal<F, N> {
    ghost use Rattle.std.specs.Prelude.{◌≡◌, ◌≤◌, length, take, true, false};
    ghost use Rattle.kept_journal.specs.Keeping.{HasEntries, MeansKept};
    ghost use Rattle.kept_journal.specs.Written.{Written};

    ghost Value = { Written };

    ghost view = { λ j. record { entries = take j.entries j.front; seen = j.front; chain = j.file.chain } };

    ghost invariant = { λ j. (j.entries ≤ length j.front) × (j.file.is_broken ≡ false → HasEntries F.tells N.opening (take j.entries j.front) (F.contents j.file.file) j.file.chain × (j.is_kept ≡ true → F.kept j.file.file ≡ F.contents j.file.file)) × MeansKept F.tells F.kept N.opening N.keeps };
}

impl<F: Device, N: JournalName> DeskJournal<F, N> {
    /// The journal of a desk in a file that has none of its lines yet. The front is of the desk.
    pub fn new(file: JournalFile<F>, front: Front<N>) -> DeskJournal<F, N>
        requires file { IsOf F.tells F.contents N.opening file }
        requires means { MeansKept F.tells F.kept N.opening N.keeps }
        ensures { result.entries ≡ [] }
    {
        DeskJournal {
            file,
            front,
            entries: 0,
            is_kept: false,
        }
    }

    /// The file.
    pub fn file(&self) -> &JournalFile<F> {
        &self.file
    }

    /// The file of the journal, which leads to the state that the desk was closed with. Where it has not all of the desk's journal,
    /// nothing is kept in it any more.
    pub fn end(self, closed: &Closed<N>) -> JournalFile<F>
        ensures { IsOf F.tells F.contents closed.now.state result }
    {
        if self.is_whole(closed) {
            self.file
        } else {
            self.file.broken()
        }
    }

    /// Whether the file has all of the desk's journal.
    fn is_whole(&self, closed: &Closed<N>) -> bool
        ensures whole { IsTrue result → self.now.entries ≡ closed.now.journal }
        ensures legal { IsLegal N.opening closed.now.journal closed.now.state }
    {
        self.entries == closed.journal().len() as u64 && closed.begins_with(&self.front)
    }

    /// Nothing is kept from now on.
    pub fn break_down(&mut self) {
        self.file.break_down();
    }

    /// Fails where nobody would find what is written to the file from now on.
    pub fn check(&self) -> io::Result<()> {
        self.file.check()
    }

    /// What the desk's journal has behind what is in the file, or some of it.
    pub fn news<L: Ledger, B: Ledger>(
        &mut self,
        rt: &impl Wait,
        desk: &Desk<L, B, N>,
        pass: &mut Pass<L, B, N>,
        alloc: Global,
    ) -> Result<News, AllocError>
        ensures news { IfOk result (AreNews self.new) }
        ensures entries { self.new.entries ≡ self.old.entries }
    {
        let from = self.entries as usize;
        let entries = self
            .front
            .entries(rt, desk, pass, alloc, from, MOST_AT_ONCE)?;
        let news = News::of(alloc, self.file.chain, entries.as_slice());
        drop(entries);
        news
    }

    /// Writes what is new, and has the device keep it. After an `Err` nothing is kept any more.
    pub fn write(&mut self, news: &News) -> io::Result<Durable<N>>
        requires { AreNews self.old news.now }
        ensures { IfOk result (λ d. d ≡ self.new.entries) }
    {
        self.file.write(&news.lines, self.is_kept)?;
        self.is_kept = true;
        // (what was seen is counted in 64 bits)
        let _seen = self.front.len();
        self.entries += news.entries as u64;
        Ok(Durable::new(self.front.again(), self.entries))
    }
}
