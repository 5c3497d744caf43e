//! Appending to a journal.
ghost use Rattle.std.specs.Prelude.{◌≡◌, OnOk};
ghost use Rattle.std.specs.Io.KnownBytes.{Appends};

use crate::device::Device;
use std::io;

/// Appends the bytes, and has the device keep them before it returns. After an `Err` the device may have a beginning of them, and of
/// what was appended before none is known to be kept: write no more to it, and read it again.
pub fn append<D: Device>(device: &mut D, bytes: &[u8]) -> io::Result<()>
    ensures bytes { OnOk result (Appends (D.contents device.old) (D.contents device.new) bytes.now) }
    ensures kept { OnOk result (D.kept device.new ≡ D.contents device.new) }
{
    device.write_all(bytes)?;
    device.flush()?;
    device.keep()
}
