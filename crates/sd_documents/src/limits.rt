//! The limits of the documents.

/// The most jobs of a configuration.
pub const MOST_JOBS: usize = 1024;

/// The most URLs of service discovery in a job.
pub const MOST_URLS: usize = 64;

/// The most relabelling rules of a job.
pub const MOST_RULES: usize = 256;

/// The most targets of a list of groups, all groups together.
pub const MOST_TARGETS: usize = 16384;
