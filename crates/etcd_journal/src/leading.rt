//! What a device that several instances may have can do beside keeping bytes.
use durable_journal::Device;
use std::io;

/// A device that several instances may have, of which one leads.
pub trait Leads: Device {
    /// Has it keep these bytes as the beginning of another journal, in the place of the last one. What was written before is to be kept already.
    fn begin(&mut self, first: &[u8]) -> io::Result<()>;

    /// Whether this instance leads, by a question behind which nobody else can have led before: what was read of it before the question may be told.
    fn is_ours(&mut self) -> io::Result<bool>;

    /// Whether this instance leads no more, so that nothing is kept ever more. It is to be opened again, and read anew.
    fn is_over(&self) -> bool;
}
