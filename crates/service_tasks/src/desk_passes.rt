//! The passes of a desk's threads beside its server.
use alloc_desk::{DeskName, Pass};
use std::alloc::{AllocError, Global};
use std::sync::ledger::Ledger;

/// The passes of a desk's threads beside its server: of the schedule, of the journal's keeper, and of the refresher.
#[derive(Drop)]
pub struct DeskPasses<L: Ledger, B: Ledger, N: DeskName> {
    pub scheduler: Pass<L, B, N>,
    pub keeper: Pass<L, B, N>,
    pub refresher: Pass<L, B, N>,
}

impl<L: Ledger, B: Ledger, N: DeskName> DeskPasses<L, B, N> {
    /// Of these passes, where there is one for each thread.
    pub fn from_passes(mut passes: Vec<Pass<L, B, N>>) -> Option<DeskPasses<L, B, N>> {
        let desk_passes = DeskPasses::of(&mut passes);
        drop(passes);
        desk_passes
    }

    fn of(passes: &mut Vec<Pass<L, B, N>>) -> Option<DeskPasses<L, B, N>> {
        let scheduler = passes.pop()?;
        let Some(keeper) = passes.pop() else {
            drop(scheduler);
            return None;
        };
        let Some(refresher) = passes.pop() else {
            drop((scheduler, keeper));
            return None;
        };
        Some(DeskPasses {
            scheduler,
            keeper,
            refresher,
        })
    }

    /// Gives the passes back.
    pub fn into_passes(self, alloc: Global) -> Result<Vec<Pass<L, B, N>>, AllocError> {
        Ok(vec![in alloc; self.refresher, self.keeper, self.scheduler]?)
    }
}
