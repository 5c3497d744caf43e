//! Connections that could not be taken, in the log.
use crate::scheduling::Schedule;
use crate::shared::Shared;
use kept_journal::JournalName;
use log::warn;
use logfmt::Logfmt;
use std::sync::Wait;
use std::sync::ledger::Ledger;
use std::time::{Clock, Duration, Instant};

/// How long the log tells nothing more of them after it told some, in milliseconds.
const SILENCE: u64 = 10_000;

/// What the log told of connections that could not be taken.
#[derive(Clone, Copy)]
pub(crate) struct FailedAccepts {
    /// Of how many.
    told: u64,
    /// When it told of the last ones.
    at: Option<Instant>,
}

impl FailedAccepts {
    /// Nothing was told.
    pub(crate) fn new() -> FailedAccepts {
        FailedAccepts { told: 0, at: None }
    }

    /// How many are to be told now, of so many in all.
    fn take(&mut self, failed: u64, now: Instant) -> u64 {
        if let Some(at) = self.at
            && now.saturating_duration_since(at) < Duration::from_millis(SILENCE)
        {
            return 0;
        }
        let untold = failed.saturating_sub(self.told);
        if untold > 0 {
            self.told = failed;
            self.at = Some(now);
        }
        untold
    }
}

impl<R: Wait + Clock + Eprint + Copy, L: Ledger, B: Ledger, N: JournalName> Shared<R, L, B, N> {
    /// Logs how many connections could not be taken since that was told last, once in a while.
    pub(crate) fn log_failed_accepts<C>(&self, schedule: &mut Schedule<C>) {
        if let Ok(now) = Instant::now(&self.rt) {
            let connections = schedule
                .failed_accepts
                .take(self.state.failed_accepts(), now);
            if connections > 0 {
                self.log_untaken(connections);
            }
        }
    }

    fn log_untaken(&self, connections: u64) {
        warn!(Logfmt(self.rt); connections; "connections could not be taken: there are too few descriptors, or there is too little memory");
    }
}
