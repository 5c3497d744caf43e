//! The open round, as requests are told of it.
use std::time::{Clock, Duration, Instant};

/// When a round was opened, said by a later moment: how long it was open then. A monotonic clock that began later tells that too.
#[derive(Clone, Copy)]
pub struct RoundStart {
    at: Instant,
    /// For how long it was open by then.
    age: Duration,
}

impl RoundStart {
    /// That of a round that is open for so long at a moment.
    pub fn open_for(at: Instant, age: Duration) -> RoundStart {
        RoundStart { at, age }
    }

    /// For how long it is open.
    pub fn age(self, now: Instant) -> Duration {
        now.saturating_duration_since(self.at)
            .saturating_add(self.age)
    }
}

/// How long the open round is open, and how long it is to be, in milliseconds.
#[derive(Clone, Copy, PartialEq, Eq)]
pub struct RoundTimes {
    pub age: u64,
    pub length: u64,
}

/// The open round, as requests are told of it.
#[derive(Drop)]
pub(crate) struct OpenRound {
    /// When it was opened, where that is known.
    start: Option<RoundStart>,
    length: Duration,
}

impl OpenRound {
    /// One of which nothing is known.
    pub(crate) fn unknown() -> OpenRound {
        OpenRound {
            start: None,
            length: Duration::ZERO,
        }
    }

    pub(crate) fn of(start: RoundStart, length: Duration) -> OpenRound {
        OpenRound {
            start: Some(start),
            length,
        }
    }

    pub(crate) fn times(&self, rt: &impl Clock) -> RoundTimes {
        RoundTimes {
            age: milliseconds(self.age(rt)),
            length: milliseconds(self.length),
        }
    }

    /// How long it is open. Nothing where no clock tells.
    fn age(&self, rt: &impl Clock) -> Duration {
        match (self.start, Instant::now(rt)) {
            (Some(start), Ok(now)) => start.age(now),
            _ => Duration::ZERO,
        }
    }
}

fn milliseconds(time: Duration) -> u64 {
    u64::try_from(time.as_millis()).unwrap_or(u64::MAX)
}
