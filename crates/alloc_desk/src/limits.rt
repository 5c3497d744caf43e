//! The limits of a desk.

/// The most entries of a journal.
pub const MOST_ENTRIES: usize = 1_048_576;

/// The most passes of a desk.
pub const MOST_PASSES: u32 = 512;
