//! The time of an event.
use jiff::Timestamp;
use std::alloc::Global;
use std::time::Clock;

/// The time in seconds as a timestamp (RFC 3339). None where the clock fails or memory is wanted.
pub fn timestamp(rt: &impl Clock, alloc: Global) -> Option<String> {
    let now = Timestamp::now(rt).ok()?;
    let at = Timestamp::from_second(now.as_second()).ok()?;
    format!(in alloc; "{at}").ok()
}
