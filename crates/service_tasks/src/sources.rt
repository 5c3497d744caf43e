//! The discovery sources of a service, as they are watched.
use crate::source::Source;
use std::time::{Clock, Duration, Instant};

/// How many sources are asked at once at most.
const MOST_ASKED: usize = 16;

/// How long it is waited at most before it is looked at the sources again, in seconds.
const LONGEST_WAIT: u64 = 3_600;

/// The discovery sources of a service.
#[derive(Drop)]
pub struct Sources {
    all: Vec<Source>,
    /// Of how many a refresh is under way.
    asked: usize,
}

impl Sources {
    /// Sources of none of which a refresh is under way.
    pub(crate) fn new(all: Vec<Source>) -> Sources {
        Sources { all, asked: 0 }
    }

    /// Whether some refresh is under way.
    pub(crate) fn is_any_asked(&self) -> bool {
        self.asked > 0
    }

    /// A refresh begins of the source that is due for longest, the place of which is given. Where none is due, or as many are asked as may
    /// be, it says how long it is until one is due.
    pub(crate) fn begin_due(&mut self, clock: &impl Clock) -> Result<usize, Duration> {
        let longest = Duration::from_secs(LONGEST_WAIT);
        if self.asked >= MOST_ASKED {
            return Err(longest);
        }
        let Ok(now) = Instant::now(clock) else {
            return Err(longest);
        };
        let Some(place) = longest_due(self.all.as_slice(), now) else {
            return Err(next_due(self.all.as_slice(), now, longest));
        };
        if let Some(source) = self.all.get_mut(place) {
            source.begin(now);
            self.asked = self.asked.saturating_add(1);
        }
        Ok(place)
    }

    /// The source at a place.
    pub(crate) fn at(&self, place: usize) -> Option<&Source> {
        self.all.get(place)
    }

    /// The source at a place whose refresh came to an end.
    pub(crate) fn ended(&mut self, place: usize) -> Option<&mut Source> {
        self.asked = self.asked.saturating_sub(1);
        self.all.get_mut(place)
    }

    /// The refreshes that are under way are given up.
    pub(crate) fn give_up(&mut self) {
        for source in &mut self.all {
            source.give_up();
        }
        self.asked = 0;
    }
}

/// The place of the source that is due for longest and is not asked, the first of several.
fn longest_due(all: &[Source], now: Instant) -> Option<usize> {
    let mut found: Option<(usize, Duration)> = None;
    for (place, source) in all.iter().enumerate() {
        found = longer(found, place, source.is_due_for(now));
    }
    match found {
        Some((place, _)) => Some(place),
        None => None,
    }
}

/// What is due for longer, the first of two.
fn longer(
    found: Option<(usize, Duration)>,
    place: usize,
    due: Option<Duration>,
) -> Option<(usize, Duration)> {
    match (found, due) {
        (Some((_, longest)), Some(due)) if due <= longest => found,
        (_, Some(due)) => Some((place, due)),
        (_, None) => found,
    }
}

/// How long it is until the next source is due, of those that are not due by now, but no longer than this.
fn next_due(all: &[Source], now: Instant, longest: Duration) -> Duration {
    let mut wait = longest;
    for source in all {
        let left = source.due_in(now);
        if !left.is_zero() {
            wait = wait.min(left);
        }
    }
    wait
}
