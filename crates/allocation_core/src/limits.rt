//! The last round.

/// The last round.
pub const LAST_ROUND: u32 = 4_294_967_295;
