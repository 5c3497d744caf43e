//! Writing lines with their digests.
ghost use Rattle.std.specs.Prelude.{◌≡◌, [], ◌++◌, IfOk, OnOk};
ghost use Rattle.sealed_lines.specs.Chains.{behind, sealed_line};
ghost use Rattle.sealed_lines.specs.Lines.{with_line};

use crate::chain::Chain;
use std::alloc::{AllocError, Global};

/// Adds a line with its digest and its line feed to the text, and gives its digest. The line has no line feed.
pub fn seal_line(
    alloc: Global,
    chain: Chain,
    line: &[u8],
    text: &mut Vec<u8>,
) -> Result<Chain, AllocError>
    ensures text { OnOk result (text.new.items ≡ text.old.items ++ with_line (sealed_line chain line.now) []) }
    ensures chain { IfOk result (λ c. c ≡ behind chain line.now) }
{
    let next = chain.behind(line);
    let seal = next.seal(alloc)?;
    text.extend_from_slice(line)?;
    text.extend_from_slice(seal.as_slice())?;
    text.push(b'\n')?;
    Ok(next)
}
