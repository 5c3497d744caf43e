//! When a collector was seen.
use crate::patience::usual_timeout;
use fleet_events::CollectorId;
use std::time::{Duration, Instant};

/// A collector, and when it was last seen.
#[derive(Clone, Copy, Drop)]
pub(crate) struct LastSeen {
    pub(crate) collector: CollectorId,
    /// When it asked for a list, or else when it was first found.
    at: Instant,
    has_asked: bool,
    /// The longest time between two looks at which it had asked for a list. One for which it is taken for absent counts once such ones
    /// come twice in a row.
    pub(crate) gap: Duration,
    /// The last time between two looks, if it is taken for absent for it.
    long_gap: Duration,
    /// Whether its lists were let go since it asked last.
    pub(crate) is_let_go: bool,
    /// Whether it was told that its timeout is short.
    pub(crate) is_told: bool,
}

impl LastSeen {
    /// One that was not seen before.
    pub(crate) fn first(collector: CollectorId, now: Instant) -> LastSeen {
        LastSeen {
            collector,
            at: now,
            has_asked: false,
            gap: Duration::ZERO,
            long_gap: Duration::ZERO,
            is_let_go: false,
            is_told: false,
        }
    }

    /// The first one under another number, of a collector that joined anew.
    pub(crate) fn of_heir(self, collector: CollectorId, now: Instant) -> LastSeen {
        LastSeen {
            collector,
            at: now,
            is_let_go: false,
            ..self
        }
    }

    /// It asks for a list.
    pub(crate) fn see(&mut self, now: Instant) {
        let gap = self.absence(now);
        if self.has_asked && gap > Duration::ZERO {
            self.note_gap(gap);
        }
        self.has_asked = true;
        self.at = now;
        self.is_let_go = false;
    }

    fn note_gap(&mut self, gap: Duration) {
        if gap > usual_timeout(self.gap) {
            self.gap = self.gap.max(gap.min(self.long_gap));
            self.long_gap = gap;
        } else {
            self.gap = self.gap.max(gap);
            self.long_gap = Duration::ZERO;
        }
    }

    /// How long it has asked for nothing.
    pub(crate) fn absence(&self, now: Instant) -> Duration {
        now.saturating_duration_since(self.at)
    }
}
