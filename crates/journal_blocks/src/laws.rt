//! Laws of blocks.
ghost use Rattle.journal_blocks.specs.Blocks.{TornEndsAreBlocks};

/// A torn end is whole blocks.
pub fn torn_ends_are_blocks()
    ensures { TornEndsAreBlocks }
{}
