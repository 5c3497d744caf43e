//! Digests, each of a line and of the digest before it.
ghost use Rattle.std.specs.Prelude.{◌≡◌, [], IfOk, take};
ghost use Rattle.hex.specs.Hex.{encode_lower};
ghost use Rattle.sealed_lines.specs.Chains.{behind, seal, start};
ghost use Rattle.sealed_lines.specs.Running.{Digests, EndsAs, TakesPiece};

use sha2::{Digest, Sha256};
use std::alloc::{AllocError, Global};

/// The digest of a line, and so of all lines before it: the first 8 bytes of SHA-256 (FIPS 180-4) over the digits of the digest before it
/// and the line's bytes.
#[derive(Clone, Copy, PartialEq, Eq)]
pub struct Chain {
    /// Hex digits in lower case.
    digits: [u8; 16],
}

impl Chain {
    /// What stands for a digest before the first line: 16 digits 0.
    pub fn start() -> Chain
        ensures { result ≡ start }
    {
        Chain {
            digits: *b"0000000000000000",
        }
    }

    /// The digest of the line that comes next.
    pub fn behind(&self, line: &[u8]) -> Chain
        ensures { result ≡ behind self.now line.now }
    {
        let mut digest = RunningDigest::behind(self);
        digest.update(line);
        digest.end()
    }

    /// What stands behind a line with this digest.
    pub fn seal(&self, alloc: Global) -> Result<Vec<u8>, AllocError>
        ensures { IfOk result (λ v. v.items ≡ seal self.now) }
    {
        let mut seal = Vec::new(alloc);
        seal.extend_from_slice(b" \"")?;
        seal.extend_from_slice(self.digits.as_slice())?;
        seal.extend_from_slice(b"\"")?;
        Ok(seal)
    }
}

/// The digest of a line that comes in pieces, one after the other.
#[derive(Drop)]
pub struct RunningDigest {
    hasher: Sha256,
}

impl RunningDigest {
    /// That of the line behind one with this digest, before its first piece.
    #[tactic(auto, unfolding(crate::specs::Running::Digests))]
    pub fn behind(chain: &Chain) -> RunningDigest
        ensures { Digests result chain.now [] }
    {
        let mut hasher = Sha256::new();
        hasher.update(chain.digits.as_slice());
        RunningDigest { hasher }
    }

    /// Goes on with the next piece.
    #[tactic(auto, unfolding(crate::specs::Running::Digests))]
    pub fn update(&mut self, piece: &[u8])
        ensures { TakesPiece self.old self.new piece.now }
    {
        self.hasher.update(piece);
    }

    /// The digest of the line of all pieces.
    #[tactic(auto, unfolding(crate::specs::Running::Digests, crate::specs::Chains::behind))]
    pub fn end(self) -> Chain
        ensures { EndsAs self result }
    {
        Chain {
            digits: digits_of(&self.hasher.finalize()),
        }
    }
}

/// The hex digits of the first 8 bytes.
fn digits_of(digest: &[u8; 32]) -> [u8; 16]
    ensures { result ≡ encode_lower (take 8 digest.now) }
{
    let mut digits = [0; 16];
    match hex::encode_to_slice(&digest[..8], &mut digits) {
        Ok(()) => digits,
        Err(_) => unreachable!(),
    }
}
