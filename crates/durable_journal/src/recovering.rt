//! Reading a journal that a crash may have left.
ghost use Rattle.std.specs.Prelude.{◌≡◌, ◌≤◌, IfOk, IfSome, length, take};
ghost use Rattle.sealed_lines.specs.Reading.{unsealed};
ghost use Rattle.durable_journal.specs.Lines.{whole_part};
ghost use Rattle.durable_journal.specs.Marks.{found_as, found_in, settled_at, settled_in};

use crate::marking::is_journal;
use lists::List;
use sealed_lines::{Chain, WrongDigest, is_sealed, unsealed};
use std::alloc::{AllocError, Global};
use std::io;
use std::io::Read;

/// The most bytes of a journal: 1 GiB.
pub const MOST_JOURNAL: u64 = 1073741824;

/// What a journal's file has.
#[derive(Drop)]
pub enum Recovered {
    /// The whole lines, each with its line feed and without its digest.
    Found {
        lines: List<u8>,
        /// The digest of the last line, where the lines have digests.
        chain: Option<Chain>,
        /// How many bytes they have in the file, with their digests.
        whole: usize,
        /// So many bytes of a torn line follow them, and are to be cut.
        torn: usize,
    },
    /// The line of this number, from 1, has a digest that is not that of it and of the lines before it.
    Altered {
        line: u64,
    },
    /// No journal, nor what a crash may have left of one.
    Other,
    /// More than the most bytes.
    TooLong,
}

/// Reads a journal to its end, from where the file stands. A line that was not written whole is left out.
pub fn recover<F: Read>(alloc: Global, file: &mut F) -> io::Result<Recovered>
    ensures { IfOk result (λ r. IfSome (F.remaining file.old) (λ bytes. r ≡ found_in bytes)) }
{
    let mut bytes = Vec::new(alloc);
    file.take(MOST_JOURNAL + 1).read_to_end(&mut bytes)?;
    Ok(found(alloc, bytes)?)
}

fn found(alloc: Global, bytes: Vec<u8>) -> Result<Recovered, AllocError>
    ensures { IfOk result (λ r. r ≡ found_in bytes.items) }
{
    if bytes.len() as u64 > MOST_JOURNAL {
        return Ok(Recovered::TooLong);
    }
    if !is_journal(bytes.as_slice()) {
        return Ok(Recovered::Other);
    }
    whole_lines(alloc, bytes)
}

/// The whole lines of a journal.
fn whole_lines(alloc: Global, bytes: Vec<u8>) -> Result<Recovered, AllocError>
    ensures { IfOk result (λ r. r ≡ settled_in bytes.items) }
{
    let mut lines = bytes;
    let kept = settled(lines.as_slice());
    let torn = lines.len() - kept;
    lines.truncate(kept);
    opened(alloc, List::from_vec(lines), torn)
}

/// The lines without their digests, if they have some.
fn opened(alloc: Global, lines: List<u8>, torn: usize) -> Result<Recovered, AllocError>
    ensures { IfOk result (λ r. r ≡ settled_at lines torn) }
{
    if is_sealed(lines.as_slice()) {
        return without_digests(alloc, lines.as_slice(), torn);
    }
    let whole = lines.len();
    Ok(Recovered::Found {
        lines,
        chain: None,
        whole,
        torn,
    })
}

fn without_digests(alloc: Global, lines: &[u8], torn: usize) -> Result<Recovered, AllocError>
    ensures { IfOk result (λ r. r ≡ found_as (length lines.now) torn (unsealed lines.now)) }
{
    match unsealed(alloc, lines)? {
        Ok(plain) => Ok(Recovered::Found {
            lines: plain.text,
            chain: Some(plain.chain),
            whole: lines.len(),
            torn,
        }),
        Err(WrongDigest { line }) => Ok(Recovered::Altered { line }),
    }
}

/// How many bytes the whole lines have.
#[tactic(auto, using(crate::proofs::WholeParts::cut_at, crate::proofs::WholeParts::none))]
pub(crate) fn settled(bytes: &[u8]) -> usize
    ensures whole { whole_part bytes.now ≡ take result bytes.now }
    ensures bound { result ≤ length bytes.now }
{
    let mut end = bytes.len();
    while end > 0 {
        if bytes[end - 1] == b'\n' {
            return end;
        }
        end -= 1;
    }
    0
}
