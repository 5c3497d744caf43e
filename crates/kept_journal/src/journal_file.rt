//! The file of a journal.
ghost use Rattle.std.specs.Prelude.{◌≡◌, OnErr, OnOk, false, true};
ghost use Rattle.std.specs.Io.KnownBytes.{Appends};
ghost use Rattle.kept_journal.specs.Beginning.{Leads};

use durable_journal::{Begun, Device, Lines, append};
use sealed_lines::Chain;
use std::io;

/// How many bytes a journal may have before another one begins: 48 MiB, a quarter less than `allocd replay` reads.
const MOST_GROWN: u64 = 50_331_648;

/// The file of a journal that goes on.
#[derive(Drop)]
pub struct JournalFile<F> {
    pub(crate) file: F,
    /// How many bytes the journal has.
    grown: u64,
    /// The digest of its last line, where its lines have digests.
    pub(crate) chain: Option<Chain>,
    /// How many it may have before another one begins.
    most: u64,
    /// Whether nothing can be kept any more.
    pub(crate) is_broken: bool,
}

impl<F> JournalFile<F> {
    /// The file of a journal of so many bytes, with the digest of its last line, where its lines have digests.
    pub fn new(file: F, bytes: u64, chain: Option<Chain>) -> JournalFile<F> {
        JournalFile {
            file,
            grown: bytes,
            chain,
            most: MOST_GROWN,
            is_broken: false,
        }
    }

    /// Whether another journal is to begin.
    pub fn is_long(&self) -> bool {
        self.grown >= self.most
    }

    /// Whether nothing can be kept any more.
    pub fn is_broken(&self) -> bool
        ensures { result ≡ self.now.is_broken }
    {
        self.is_broken
    }

    /// Nothing is kept from now on.
    pub fn break_down(&mut self)
        ensures { self.new.is_broken ≡ true }
    {
        self.is_broken = true;
    }
}

impl<F> JournalFile<F> {
    /// The file, in which nothing is kept from now on.
    pub(crate) fn broken(mut self) -> JournalFile<F>
        ensures { result.is_broken ≡ true }
    {
        self.is_broken = true;
        self
    }
}

impl<F: Device> JournalFile<F> {
    /// The file of a journal that has just begun: it leads to the state that its first line opens. Where that line is long, the journal may grow to
    /// twice of it.
    pub fn begun(begun: Begun<F>) -> JournalFile<F>
        ensures { Leads F.tells F.contents begun result }
    {
        JournalFile {
            file: begun.file,
            grown: begun.bytes,
            chain: Some(begun.chain),
            most: MOST_GROWN.max(begun.bytes.saturating_mul(2)),
            is_broken: false,
        }
    }

    /// Fails where nobody would find what is written from now on.
    pub(crate) fn check(&self) -> io::Result<()> {
        self.file.check()
    }

    /// Writes lines behind those that are there, and has the device keep all that it has, where it does not yet. Where it fails nothing is kept any
    /// more.
    pub(crate) fn write(&mut self, lines: &Lines, is_kept: bool) -> io::Result<()>
        requires kept { self.old.is_broken ≡ false → is_kept ≡ true → F.kept self.old.file ≡ F.contents self.old.file }
        ensures bytes { OnOk result (Appends (F.contents self.old.file) (F.contents self.new.file) lines.now.bytes) }
        ensures kept { OnOk result (F.kept self.new.file ≡ F.contents self.new.file) }
        ensures chain { OnOk result (self.new.chain ≡ lines.now.chain) }
        ensures whole { OnOk result (self.old.is_broken ≡ false) }
        ensures err { OnErr result (self.new.is_broken ≡ true) }
    {
        if self.is_broken {
            return Err(io::ErrorKind::Other.into());
        }
        self.keep(is_kept)?;
        if lines.bytes.is_empty() {
            self.chain = lines.chain;
            Ok(())
        } else {
            self.append(lines)
        }
    }

    /// Has the device keep what the file has, where it does not yet.
    fn keep(&mut self, is_kept: bool) -> io::Result<()>
        requires kept { is_kept ≡ true → F.kept self.old.file ≡ F.contents self.old.file }
        ensures bytes { OnOk result (F.contents self.new.file ≡ F.contents self.old.file) }
        ensures kept { OnOk result (F.kept self.new.file ≡ F.contents self.new.file) }
        ensures err { OnErr result (self.new.is_broken ≡ true) }
    {
        if is_kept {
            return Ok(());
        }
        let kept = self.file.keep();
        if kept.is_err() {
            self.is_broken = true;
        }
        kept
    }

    /// Writes lines behind those that are there, and has the device keep them.
    fn append(&mut self, lines: &Lines) -> io::Result<()>
        ensures bytes { OnOk result (Appends (F.contents self.old.file) (F.contents self.new.file) lines.now.bytes) }
        ensures kept { OnOk result (F.kept self.new.file ≡ F.contents self.new.file) }
        ensures chain { OnOk result (self.new.chain ≡ lines.now.chain) }
        ensures err { OnErr result (self.new.is_broken ≡ true) }
    {
        match self.appended(lines) {
            Ok(()) => {
                self.grown = self.grown.saturating_add(lines.bytes.len() as u64);
                self.chain = lines.chain;
                Ok(())
            }
            Err(error) => {
                self.is_broken = true;
                Err(error)
            }
        }
    }

    fn appended(&mut self, lines: &Lines) -> io::Result<()>
        ensures bytes { OnOk result (Appends (F.contents self.old.file) (F.contents self.new.file) lines.now.bytes) }
        ensures kept { OnOk result (F.kept self.new.file ≡ F.contents self.new.file) }
    {
        self.file.check()?;
        append(&mut self.file, lines.bytes.as_slice())
    }
}
