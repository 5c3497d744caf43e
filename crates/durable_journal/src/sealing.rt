//! A line that is written in pieces, with its digest.
ghost use Rattle.std.specs.Prelude.{◌≡◌, [], ◌∷◌, ◌++◌, ◌+◌, IfOk, length};
ghost use Rattle.std.specs.Io.Buffered.{writer_contents};
ghost use Rattle.std.specs.Io.Iter.{u64_saturate};
ghost use Rattle.std.specs.Io.KnownBytes.{Appends, Keeps, append_known};
ghost use Rattle.sealed_lines.specs.Chains.{seal, start};
ghost use Rattle.sealed_lines.specs.Running.{Digests, EndsAs};
ghost use Rattle.durable_journal.specs.Pieces.{Grows, grows_join};

use crate::beginning::Begun;
use crate::device::Device;
use json_pieces::Pieces;
use sealed_lines::{Chain, RunningDigest};
use std::alloc::{AllocError, Global};
use std::io;
use std::io::{BufWriter, Write};

/// How many bytes are written at once.
const AT_ONCE: usize = 65_536;

/// The first line of a file, which goes there in pieces, while its digest is made.
#[derive(Drop)]
pub(crate) struct Sealing<F: Write + Drop> {
    file: BufWriter<F>,
    digest: RunningDigest,
    /// How many bytes of it there are.
    bytes: u64,
}

impl<F: Write + Drop> Pieces for Sealing<F> {
    ghost grows = { Grows F.contents };

    fn write_piece(&mut self, piece: &[u8]) -> io::Result<()> {
        self.file.write_all(piece)?;
        self.digest.update(piece);
        self.bytes = self.bytes.saturating_add(piece.len() as u64);
        Ok(())
    }

    ghost joins = { grows_join F.contents };
}

impl<F: Write + Drop> Sealing<F> {
    /// No byte of a line yet.
    pub(crate) fn new(alloc: Global, file: F) -> io::Result<Sealing<F>>
        ensures file { IfOk result (λ s. writer_contents F.contents s.file ≡ append_known (F.contents file) []) }
        ensures digest { IfOk result (λ s. Digests s.digest start []) }
        ensures bytes { IfOk result (λ s. s.bytes ≡ 0) }
    {
        let file = BufWriter::with_capacity(alloc, AT_ONCE, file)?;
        Ok(Sealing {
            file,
            digest: RunningDigest::behind(&Chain::start()),
            bytes: 0,
        })
    }
}

impl<F: Device + Drop> Sealing<F> {
    /// Ends the line with its digest and a line feed, and has the device keep it.
    pub(crate) fn end(self, alloc: Global) -> io::Result<Begun<F>>
        ensures chain { IfOk result (λ b. EndsAs self.digest b.chain) }
        ensures file { IfOk result (λ b. Appends (writer_contents F.contents self.file) (F.contents b.file) (seal b.chain ++ 10 ∷ [])) }
        ensures bytes { IfOk result (λ b. b.bytes ≡ u64_saturate (self.bytes + length (seal b.chain ++ 10 ∷ []))) }
        ensures kept { IfOk result (λ b. F.kept b.file ≡ F.contents b.file) }
    {
        let Sealing {
            file,
            digest,
            bytes,
        } = self;
        let chain = digest.end();
        let ending = ending_of(alloc, chain)?;
        let file = ended(file, ending.as_slice())?;
        Ok(Begun {
            file,
            chain,
            bytes: bytes.saturating_add(ending.len() as u64),
        })
    }
}

/// What stands behind a line with this digest, and its line feed.
fn ending_of(alloc: Global, chain: Chain) -> Result<Vec<u8>, AllocError>
    ensures { IfOk result (λ v. v.items ≡ seal chain ++ 10 ∷ []) }
{
    let mut ending = chain.seal(alloc)?;
    ending.push(b'\n')?;
    Ok(ending)
}

/// The file, which the device keeps with these bytes at its end.
fn ended<F: Device + Drop>(mut file: BufWriter<F>, ending: &[u8]) -> io::Result<F>
    ensures bytes { IfOk result (λ f. Appends (writer_contents F.contents file) (F.contents f) ending.now) }
    ensures kept { IfOk result (λ f. F.kept f ≡ F.contents f) }
{
    file.write_all(ending)?;
    match file.into_inner() {
        Ok(file) => kept(file),
        Err(error) => Err(error.into_error()),
    }
}

/// The file, once the device keeps it.
fn kept<F: Device + Drop>(mut file: F) -> io::Result<F>
    ensures bytes { IfOk result (λ f. Keeps (F.contents file) (F.contents f)) }
    ensures kept { IfOk result (λ f. F.kept f ≡ F.contents f) }
{
    file.flush()?;
    file.keep()?;
    Ok(file)
}
