//! How long something took.
use std::time::{Clock, Instant};

/// How many microseconds went by since a moment, 0 where no clock tells.
pub(crate) fn microseconds_since<R: Clock>(rt: &R, begun: Option<Instant>) -> u64 {
    match (begun, Instant::now(rt)) {
        (Some(begun), Ok(now)) => {
            let passed = now.saturating_duration_since(begun).as_micros();
            u64::try_from(passed).unwrap_or(u64::MAX)
        }
        _ => 0,
    }
}

/// The seconds since 1970, 0 where no clock tells.
pub(crate) fn seconds_now<R: Clock>(rt: &R) -> u64 {
    match rt.since_1970() {
        Ok(now) => now.as_secs(),
        Err(_) => 0,
    }
}
