//! Who asked for a list.
use fleet_events::CollectorId;
use std::alloc::{AllocError, Global};
use std::mem;

/// The live collectors that asked for a list, each once, since they were looked at.
#[derive(Drop)]
pub(crate) struct Takers {
    alloc: Global,
    takers: Vec<CollectorId>,
}

impl Takers {
    /// Nobody asked.
    pub(crate) fn new(alloc: Global) -> Takers {
        Takers {
            alloc,
            takers: Vec::new(alloc),
        }
    }

    /// This one asked.
    pub(crate) fn note(&mut self, id: CollectorId) -> Result<(), AllocError> {
        if self.takers.contains(&id) {
            return Ok(());
        }
        self.takers.push(id)?;
        Ok(())
    }

    /// Those that asked, since this was asked.
    pub(crate) fn take(&mut self) -> Vec<CollectorId> {
        mem::replace(&mut self.takers, Vec::new(self.alloc))
    }
}
