//! The process, as the schedule looks at it.
use crate::configuration::Configuration;
use crate::scheduling::Schedule;
use crate::shared::Shared;
use kept_journal::JournalName;
use std::sync::Wait;
use std::sync::ledger::Ledger;
use std::time::{Clock, Duration, Instant};

/// How long after a look at the process the next one is due, in milliseconds.
const NEXT_LOOK: u64 = 5_000;

impl<R: Wait + Clock + Eprint + Copy, L: Ledger, B: Ledger, N: JournalName> Shared<R, L, B, N> {
    /// Notes what the machine says of the process, where that is due.
    pub(crate) fn look_at_process<C: Configuration>(&self, schedule: &mut Schedule<C>) {
        let Ok(now) = Instant::now(&self.rt) else {
            return;
        };
        if is_due(schedule.process_seen, now) {
            schedule.process_seen = Some(now);
            let figures = schedule.configuration.process();
            self.state.note_process(&self.rt, figures);
        }
    }
}

fn is_due(last: Option<Instant>, now: Instant) -> bool {
    match last {
        Some(last) => now.saturating_duration_since(last) >= Duration::from_millis(NEXT_LOOK),
        None => true,
    }
}
