//! What the numbers of options are at most.

/// The greatest percentage of `--spread`.
pub const MOST_PERCENT: u64 = 1_000;

/// The most bins in a row of `--jobs`.
pub const MOST_BINS_IN_A_ROW: u64 = 16_384;

/// The greatest number of `--most-moves`.
pub const GREATEST_NUMBER: u64 = 4_294_967_295;
