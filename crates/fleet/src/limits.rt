//! The limits of a fleet.

/// The most jobs.
pub const MOST_JOBS: usize = 1_024;

/// The most targets that may be live at once.
pub const MOST_LIVE_TARGETS: usize = 16_384;

/// The most targets that may ever be listed.
pub const MOST_KNOWN_TARGETS: usize = 65_535;

/// The most collectors that may be live at once.
pub const MOST_COLLECTORS: usize = 256;

/// The most bins: jobs times live collectors.
pub const MOST_BINS: usize = 16_384;

/// The last number that a collector is given.
pub const LAST_COLLECTOR: u32 = 4_294_967_295;
