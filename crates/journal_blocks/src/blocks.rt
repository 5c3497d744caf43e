//! Texts, cut into blocks.
ghost use Rattle.std.specs.Prelude.{◌≡◌, ◌<◌, ◌≤◌, IfOk, length, map, not, take};
ghost use Rattle.journal_blocks.specs.Blocks.{Fits, IsCut};
ghost use Rattle.journal_blocks.specs.declared.blocks.TheConstants.{MOST_BYTES};

use crate::lengths::{ends_line, through_first, through_last};
use std::alloc::{AllocError, Global};

/// The most bytes of a block, which etcd takes three times over in one request.
pub const MOST_BYTES: usize = 524_288;

/// Cuts a text into blocks.
pub fn cut<'a>(alloc: Global, text: &'a [u8]) -> Result<Vec<&'a [u8]>, AllocError>
    ensures { IfOk result (λ bs. IsCut text.now (map (λ b. b.now) bs.items)) }
{
    let mut blocks = Vec::new(alloc);
    let mut rest = text;
    let mut within = false;
    while !rest.is_empty() {
        let (block, others) = rest.split_at(block_length(within, rest));
        blocks.push(block)?;
        within = !ends_line(block);
        rest = others;
    }
    Ok(blocks)
}

/// How long the first block of some text is.
fn block_length(within: bool, text: &[u8]) -> usize
    requires { 0 < length text.now }
    ensures some { 0 < result }
    ensures there { result ≤ length text.now }
    ensures short { result ≤ MOST_BYTES }
    ensures fits { Fits within (take result text.now) }
{
    let front = &text[..text.len().min(MOST_BYTES)];
    if within {
        through_first(front)
    } else {
        through_last(front)
    }
}
