//! A device in memory, which takes few bytes at once.
use durable_journal::Device;
use std::io;
use std::io::Write;

/// The most bytes of one write.
const MOST_AT_ONCE: usize = 7;

#[derive(Drop)]
pub(crate) struct Memory {
    pub(crate) bytes: Vec<u8>,
}

impl Write for Memory {
    fn write(&mut self, buf: &[u8]) -> io::Result<usize> {
        let count = buf.len().min(MOST_AT_ONCE);
        self.bytes.extend_from_slice(&buf[..count])?;
        Ok(count)
    }

    fn flush(&mut self) -> io::Result<()> {
        Ok(())
    }
}

impl Device for Memory {
    ghost use Rattle.std.specs.Prelude.{None, false};

    ghost tells = { false };

    ghost kept = { λ _. None };

    fn keep(&mut self) -> io::Result<()> {
        Ok(())
    }

    fn check(&self) -> io::Result<()> {
        Ok(())
    }
}
