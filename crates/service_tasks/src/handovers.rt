//! Targets that are handed over, and since when.
use crate::logging::log_warning;
use crate::scheduling::Schedule;
use crate::shared::Shared;
use alloc_desk::{Pass, Record};
use fleet_events::TargetId;
use kept_journal::JournalName;
use page_rows::{HandingOver, targets_handing_over};
use std::alloc::{AllocError, Global};
use std::sync::Wait;
use std::sync::ledger::Ledger;
use std::time::Clock;

/// The targets that are handed over, each with since when.
#[derive(Drop)]
pub(crate) struct Handovers {
    /// How many entries the journal had at the last look. None where nobody looked yet.
    entries: Option<usize>,
    /// In order of the targets' numbers, in seconds since 1970.
    since: Vec<(TargetId, u64)>,
}

impl Handovers {
    pub(crate) fn new(alloc: Global) -> Handovers {
        Handovers {
            entries: None,
            since: Vec::new(alloc),
        }
    }

    /// Another journal begins.
    pub(crate) fn look_anew(&mut self) {
        self.entries = None;
    }

    /// Whether some target is handed over.
    pub(crate) fn is_any(&self) -> bool {
        !self.since.is_empty()
    }

    /// These are handed over now.
    fn note(&mut self, alloc: Global, waiting: &[HandingOver], now: u64) -> Result<(), AllocError> {
        let mut since = Vec::with_capacity(alloc, waiting.len())?;
        for one in waiting {
            since.push((one.target, self.since_of(one.target).unwrap_or(now)))?;
        }
        self.since = since;
        Ok(())
    }

    fn since_of(&self, target: TargetId) -> Option<u64> {
        let place = self
            .since
            .binary_search_by_key(&target, |(known, _)| *known)
            .ok()?;
        let (_, since) = self.since.get(place)?;
        Some(*since)
    }

    /// Since when the target is handed over that is so for longest. 0 where none is.
    fn oldest(&self) -> u64 {
        let mut oldest = None;
        for (_, since) in self.since.iter() {
            oldest = Some(oldest.unwrap_or(*since).min(*since));
        }
        oldest.unwrap_or(0)
    }
}

/// The targets that are handed over, and how many entries the journal has, where that changed.
fn news(
    alloc: Global,
    record: &Record,
    entries: Option<usize>,
) -> Result<Option<(usize, Vec<HandingOver>)>, AllocError> {
    let now = record.journal().len();
    if entries == Some(now) {
        return Ok(None);
    }
    Ok(Some((now, targets_handing_over(alloc, record.core())?)))
}

impl<R: Wait + Clock + Eprint + Copy, L: Ledger, B: Ledger, N: JournalName> Shared<R, L, B, N> {
    /// Notes which targets are handed over, where something was entered.
    pub(crate) fn watch_handovers<C>(&self, pass: &mut Pass<L, B, N>, schedule: &mut Schedule<C>) {
        if self.note_handovers(pass, &mut schedule.handovers).is_err() {
            log_warning(&self.rt, "no memory to see which targets are handed over");
        }
    }

    fn note_handovers(
        &self,
        pass: &mut Pass<L, B, N>,
        handovers: &mut Handovers,
    ) -> Result<(), AllocError> {
        let (alloc, entries) = (self.alloc, handovers.entries);
        let news = self
            .desk
            .read(&self.rt, pass, |record| news(alloc, record, entries))?;
        if let Some((entries, waiting)) = news {
            handovers.note(alloc, waiting.as_slice(), self.seconds())?;
            handovers.entries = Some(entries);
            self.state.note_handing_over(handovers.oldest());
        }
        Ok(())
    }

    /// Seconds since 1970, or 0 where no clock tells.
    fn seconds(&self) -> u64 {
        match self.rt.since_1970() {
            Ok(since) => since.as_secs(),
            Err(_) => 0,
        }
    }
}
