//! The device that keeps the journal, as the schedule watches it.
use crate::control::Ending;
use crate::logging::{log_error, log_info, log_warning};
use crate::scheduling::Schedule;
use crate::shared::Shared;
use kept_journal::{JournalName, Kept};
use std::sync::Wait;
use std::sync::ledger::Ledger;
use std::time::{Clock, Duration, Instant};

/// How long a write may take before the service is not ready, in milliseconds.
const LONGEST_WRITE: u64 = 3_000;

impl<R: Wait + Clock + Eprint + Copy, L: Ledger, B: Ledger, N: JournalName> Shared<R, L, B, N> {
    /// Tells when a write of the journal takes long, and has the service end a while after one failed.
    pub(crate) fn watch_device<C>(&self, schedule: &mut Schedule<C>) {
        if let (Some(kept), Ok(now)) = (&self.kept, Instant::now(&self.rt)) {
            self.watch_write(kept, schedule, now);
            self.end_when_broken(kept, schedule, now);
        }
    }

    fn watch_write<C>(&self, kept: &Kept<N>, schedule: &mut Schedule<C>, now: Instant) {
        let longest = Duration::from_millis(LONGEST_WRITE);
        let is_hanging = kept.is_hanging(&self.rt, now, longest);
        if is_hanging != schedule.is_hanging {
            schedule.is_hanging = is_hanging;
            self.state.set_hanging(is_hanging);
            self.log_device(is_hanging);
        }
    }

    fn log_device(&self, is_hanging: bool) {
        if is_hanging {
            log_warning(
                &self.rt,
                "the device of the journal does not come back: until it does the service is not ready, and what is submitted is answered 503",
            );
        } else {
            log_info(&self.rt, "the write of the journal has ended");
        }
    }

    fn end_when_broken<C>(&self, kept: &Kept<N>, schedule: &mut Schedule<C>, now: Instant) {
        if !kept.is_broken(&self.rt) {
            return;
        }
        let since = schedule.broken.unwrap_or(now);
        schedule.broken = Some(since);
        if now.saturating_duration_since(since) >= self.give_up {
            log_error(&self.rt, "the journal is broken: the service ends");
            self.control.end(&self.rt, Ending::Broken);
        }
    }
}
