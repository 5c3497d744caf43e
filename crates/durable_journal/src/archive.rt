//! Where an allocator has its journals.
ghost use Rattle.std.specs.Prelude.{◌≡◌, IfOk};
ghost use Rattle.durable_journal.specs.Beginnings.{IsBegunAnew};

use crate::beginning::{Begun, FirstLine};
use crate::device::Device;
use std::io;

/// Where an allocator has its journals, one after the other.
pub trait Archive<F: Device> {
    /// Begins a journal with this line in the place of the last one, which is put beside it, and gives its file. The line is on the device
    /// before the last journal is moved.
    fn begin(&mut self, first: &FirstLine) -> io::Result<Begun<F>>
        ensures form { IfOk result (IsBegunAnew F.tells F.contents first.now) }
        ensures kept { IfOk result (λ b. F.kept b.file ≡ F.contents b.file) };
}
