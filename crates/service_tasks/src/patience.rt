//! How long a collector may ask for nothing.
use service_settings::{CollectorTimeout, ReleaseAfter, Settings};
use std::time::Duration;

/// The least timeout that is taken from a collector's own lists, in milliseconds.
const LEAST_TIMEOUT: u64 = 180_000;

/// How many times the longest gap between two lists it is.
const GAPS: u32 = 3;

/// How long a collector may ask for nothing.
#[derive(Clone, Copy)]
pub(crate) struct Patience {
    timeout: CollectorTimeout,
    release: ReleaseAfter,
}

impl Patience {
    pub(crate) fn of(settings: &Settings) -> Patience {
        Patience {
            timeout: settings.collector_timeout,
            release: settings.release_after,
        }
    }

    /// After how long a collector with this longest gap between two lists is drained, if ever.
    pub(crate) fn timeout(self, gap: Duration) -> Option<Duration> {
        match self.timeout {
            CollectorTimeout::Never => None,
            CollectorTimeout::After(millis) => Some(Duration::from_millis(millis)),
            CollectorTimeout::Adaptive => Some(usual_timeout(gap)),
        }
    }

    /// After how long its lists are let go, if ever.
    pub(crate) fn release(self, gap: Duration) -> Option<Duration> {
        match self.release {
            ReleaseAfter::Never => None,
            ReleaseAfter::After(millis) => Some(Duration::from_millis(millis)),
            ReleaseAfter::WithTimeout => self.timeout(gap),
        }
    }

    /// Whether the timeout that is set is shorter than two gaps between two lists: one that comes late is taken for absent.
    pub(crate) fn is_short(self, gap: Duration) -> bool {
        match self.timeout {
            CollectorTimeout::After(millis) => {
                Duration::from_millis(millis) < gap.saturating_mul(2)
            }
            CollectorTimeout::Adaptive | CollectorTimeout::Never => false,
        }
    }
}

/// The timeout that goes by a collector's own lists.
pub(crate) fn usual_timeout(gap: Duration) -> Duration {
    gap.saturating_mul(GAPS)
        .max(Duration::from_millis(LEAST_TIMEOUT))
}
