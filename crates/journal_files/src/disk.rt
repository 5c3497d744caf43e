//! A file of this machine that keeps a journal.
use durable_journal::Device;
use std::fs::{File, OpenFile};
use std::io;
use std::io::Write;
use std::os::unix::fs::MetadataExt;

/// A file of this machine, open to write at its end. Who has it can only append to it, and have it kept.
#[derive(Drop)]
pub struct Disk {
    file: File,
}

impl Disk {
    /// A file that was opened to write at its end, and whose lines are whole.
    pub(crate) fn new(file: File) -> Disk {
        Disk { file }
    }
}

impl Write for Disk {
    fn write(&mut self, buf: &[u8]) -> io::Result<usize> {
        self.file.write(buf)
    }

    fn flush(&mut self) -> io::Result<()> {
        self.file.flush()
    }
}

impl Device for Disk {
    ghost use Rattle.std.specs.Prelude.{None, false};

    ghost tells = { false };

    ghost kept = { λ _. None };

    fn keep(&mut self) -> io::Result<()> {
        self.file.sync_data()
    }

    /// A file that no folder has any more keeps nothing.
    fn check(&self) -> io::Result<()> {
        if self.file.metadata()?.nlink() == 0 {
            return Err(io::ErrorKind::NotFound.into());
        }
        Ok(())
    }
}
