//! What keeps the bytes of a journal.
ghost use Rattle.std.specs.Prelude.{◌≡◌, OnOk};

use std::io;
use std::io::Write;

/// What keeps the bytes of a journal. They can only grow: nothing here cuts them or goes back in them. Contracts see the bytes that it was
/// given, and those that it has whatever becomes of the machine, each where they are known.
pub trait Device: Write {
    ghost use Rattle.std.specs.Prelude.{Bool, Option, List, ℕ};

    // whether the bytes that it has, and those that it keeps, are known
    ghost tells: { Bool };

    ghost kept: { Self → Option (List ℕ) };

    /// Has it keep all that was written to it.
    fn keep(&mut self) -> io::Result<()>
        ensures bytes { Self.contents self.new ≡ Self.contents self.old }
        ensures kept { OnOk result (kept self.new ≡ Self.contents self.new) };

    /// Fails where nobody would find what is written to it from now on.
    fn check(&self) -> io::Result<()>;
}
