//! What the last search that made loads even told of them.
use crate::logging::log_warning;
use crate::shared::Shared;
use alloc_desk::{Pass, Record};
use allocation_core::{Core, Event};
use fleet::Collector;
use kept_journal::JournalName;
use service_state::LoadNote;
use spread_certificate::{Even, Spread};
use std::alloc::{AllocError, Global};
use std::sync::Wait;
use std::sync::ledger::Ledger;
use std::time::Clock;

impl<R: Wait + Clock + Eprint + Copy, L: Ledger, B: Ledger, N: JournalName> Shared<R, L, B, N> {
    /// Notes for those who look at the service how even the collectors' loads are to be.
    pub(crate) fn note_loads(&self, pass: &mut Pass<L, B, N>) {
        if self.spread.is_none() {
            self.state.note_loads(&self.rt, Vec::new(self.alloc));
            return;
        }
        let loads = self
            .desk
            .read(&self.rt, pass, |record| last_loads(self.alloc, record));
        match loads {
            Ok(loads) => self.state.note_loads(&self.rt, loads),
            Err(_) => log_warning(&self.rt, "no memory to note how even loads are to be"),
        }
    }
}

/// What the spread that was entered last tells of the collectors' loads. Nothing where a collector joined or left since.
fn last_loads(alloc: Global, record: &Record) -> Result<Vec<LoadNote>, AllocError> {
    for entry in record.journal().iter().rev() {
        match &entry.event {
            Event::Spread(spread) => return loads_of(alloc, record.core(), spread),
            Event::Join { .. } | Event::Leave(_) => return Ok(Vec::new(alloc)),
            _ => {}
        }
    }
    Ok(Vec::new(alloc))
}

fn loads_of(alloc: Global, core: &Core, spread: &Spread) -> Result<Vec<LoadNote>, AllocError> {
    let jobs = core.fleet().jobs().len();
    let even = even_loads(alloc, core, spread)?;
    let mut notes = Vec::with_capacity(alloc, core.collectors().len())?;
    for (place, collector) in core.collectors().iter().enumerate() {
        notes.push(LoadNote {
            collector: collector.id,
            even: even_load(even.as_slice(), place, collector),
            cap: cap_of(spread.caps.as_slice(), jobs, place),
        })?;
    }
    Ok(notes)
}

/// How many targets each collector has where the loads are the most even. Nothing where the spread does not tell it.
fn even_loads(alloc: Global, core: &Core, spread: &Spread) -> Result<Vec<u64>, AllocError> {
    match &spread.even {
        Some(even) => counts(alloc, core, witness(even, spread)),
        None => Ok(Vec::new(alloc)),
    }
}

/// The pairs that are as even as any.
fn witness<'a>(even: &'a Even, spread: &'a Spread) -> &'a [(u32, u32)] {
    match &even.witness {
        Some(pairs) => pairs.as_slice(),
        None => spread.plan.pairs.as_slice(),
    }
}

/// How many of the pairs each collector has, by its place. It has so many bins in a row as there are jobs.
fn counts(alloc: Global, core: &Core, pairs: &[(u32, u32)]) -> Result<Vec<u64>, AllocError> {
    let jobs = core.fleet().jobs().len().max(1);
    let mut counts = Vec::with_capacity(alloc, core.collectors().len())?;
    for _ in 0..core.collectors().len() {
        counts.push(0)?;
    }
    for (_, bin) in pairs {
        count_one(&mut counts, *bin as usize / jobs);
    }
    Ok(counts)
}

fn count_one(counts: &mut [u64], place: usize) {
    if let Some(count) = counts.get_mut(place) {
        *count = count.saturating_add(1);
    }
}

/// A collector that drains is left out of what is made even.
fn even_load(even: &[u64], place: usize, collector: &Collector) -> Option<u64> {
    if collector.draining {
        return None;
    }
    even.get(place).copied()
}

/// The sum of the caps of the collector at a place.
fn cap_of(caps: &[u32], jobs: usize, place: usize) -> u64 {
    let mut sum: u64 = 0;
    for cap in caps.iter().skip(place.saturating_mul(jobs)).take(jobs) {
        sum = sum.saturating_add(u64::from(*cap));
    }
    sum
}
