//! Lists that count as let go, since lists are not served in order any more.
use crate::shared::Shared;
use alloc_desk::Pass;
use allocation_core::Core;
use fleet_events::{CollectorId, Event};
use kept_journal::JournalName;
use std::alloc::{AllocError, Global};
use std::sync::Wait;
use std::sync::ledger::Ledger;
use std::time::Clock;

impl<R: Wait + Clock + Eprint + Copy, L: Ledger, B: Ledger, N: JournalName> Shared<R, L, B, N> {
    /// Lets all lists go that were served in order.
    pub(crate) fn let_all_go(&self, pass: &mut Pass<L, B, N>) -> Result<(), AllocError> {
        let alloc = self.alloc;
        let collectors = self
            .desk
            .read(&self.rt, pass, |record| served_by(alloc, record.core()))?;
        for collector in collectors.iter() {
            let collector = *collector;
            let job = None;
            self.enter_numbered(pass, collector, Event::Release { collector, job });
        }
        Ok(())
    }
}

/// The collectors that may have lists that were served: the live ones, and those whose lists have targets. None where none was ever served.
fn served_by(alloc: Global, core: &Core) -> Result<Vec<CollectorId>, AllocError> {
    let mut collectors = Vec::new(alloc);
    if core.slots().is_empty() {
        return Ok(collectors);
    }
    for collector in core.collectors() {
        collectors.push(collector.id)?;
    }
    for collector in core.slots() {
        if *collector != 0 && !collectors.contains(collector) {
            collectors.push(*collector)?;
        }
    }
    Ok(collectors)
}
