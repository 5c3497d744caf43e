//! Torn ends of blocks.
ghost use Rattle.std.specs.Prelude.{◌≡◌, map};
ghost use Rattle.journal_blocks.specs.Blocks.{whole_count};

use crate::lengths::ends_line;

/// How many blocks there are up to the last that ends a line. What stands behind them is a torn end.
pub fn whole_count(blocks: &[&[u8]]) -> usize
    ensures { result ≡ whole_count (map (λ b. b.now) blocks.now) }
{
    let mut count = 0;
    for (i, block) in blocks.iter().enumerate() {
        if ends_line(block) {
            count = i + 1;
        }
    }
    count
}
