//! Lines that carry digests: behind each line stands a digest of it and of the digest before it, so that a line that was changed, left
//! out, doubled or moved is told by its number.
//!
//! Contracts see a text as its bytes. They say which texts are read and what is read of them; that two texts have two digests they don't
//! say, since of 64 bits that is not true of all.
#![tactic(auto)]

mod chain;
mod laws;
mod line;
mod sealing;
mod unsealing;

pub use chain::{Chain, RunningDigest};
pub use laws::{accepted_are_sealed, sealed_are_read};
pub use line::first_line;
pub use sealing::seal_line;
pub use unsealing::{PlainLines, WrongDigest, is_sealed, unsealed, without_digests};
