//! What of a journal is written from now on.
ghost use Rattle.std.specs.Prelude.{◌≡◌, IfOk, Some};
ghost use Rattle.journal_files.specs.Opening.{IsOpenedWith};

use crate::opening::Opened;
use crate::reading::Past;
use allocation_core::Core;
use command_faults::Fault;
use durable_journal::Begun;
use log::info;
use logfmt::Logfmt;
use sealed_lines::Chain;
use std::io;
use std::time::Clock;

/// The file of a journal that is written from now on.
#[derive(Drop)]
pub struct Written<D> {
    pub file: D,
    /// How many bytes the journal has.
    pub bytes: u64,
    /// The digest of its last line, where its lines have digests.
    pub chain: Option<Chain>,
}

impl<D> Written<D> {
    /// What is written of a journal that has just begun.
    pub fn begun(begun: Begun<D>) -> Written<D>
        ensures { result ≡ record { file = begun.file; bytes = begun.bytes; chain = Some begun.chain } }
    {
        Written {
            file: begun.file,
            bytes: begun.bytes,
            chain: Some(begun.chain),
        }
    }
}

/// An allocator with what its journal told, and with the file that is written, if there is one.
pub fn opened_with<D>(
    core: Core,
    past: Past,
    written: io::Result<Written<D>>,
) -> Result<Opened<D>, Fault>
    ensures { IfOk result (IsOpenedWith core past written) }
{
    match written {
        Ok(written) => Ok(Opened {
            core,
            epoch: past.epoch,
            names: past.names,
            file: Some(written.file),
            bytes: written.bytes,
            chain: written.chain,
        }),
        Err(error) => {
            drop((core, past));
            Err(Fault::Machine(error))
        }
    }
}

/// Tells that a journal was read.
pub fn log_read<R: Clock + Eprint + Copy>(rt: &R, events: u64) {
    info!(Logfmt(*rt); events; "the journal is read");
}

/// Tells that another journal begins, since the configuration has other jobs or keeps reports of another number of rounds.
pub fn log_replaced<R: Clock + Eprint + Copy>(rt: &R) {
    info!(Logfmt(*rt); "the configuration has other jobs or report_rounds than the journal: the allocator is renewed");
}
