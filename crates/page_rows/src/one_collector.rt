//! A collector at a moment.
use crate::collectors::collector_meant;
use crate::handing_over::{HandingOver, targets_handing_over};
use crate::one_job::moment_of;
use crate::target_rows::push_held;
use allocation_core::Core;
use fleet_events::{CollectorId, TargetId};
use sd_routes::{CollectorRow, WhichCollector};
use service_pages::{MOST_ROWS, Moment, TargetRow};
use std::alloc::{AllocError, Global};

/// A live collector at a moment.
#[derive(Drop)]
pub struct CollectorState {
    pub row: CollectorRow,
    /// The first live targets that it holds, in order of number.
    pub targets: Vec<TargetRow>,
    pub moment: Moment,
}

impl CollectorState {
    /// How many live targets it holds.
    pub fn held(&self) -> u64 {
        let mut held: u64 = 0;
        for share in self.row.held.as_slice() {
            held = held.saturating_add(u64::from(share.1));
        }
        held
    }
}

/// The live collector that is meant, if there is one.
pub fn collector_state(
    alloc: Global,
    core: &Core,
    which: &WhichCollector,
) -> Result<Option<CollectorState>, AllocError> {
    match collector_meant(alloc, core, which)? {
        Some(row) => Ok(Some(state_of(alloc, core, row)?)),
        None => Ok(None),
    }
}

fn state_of(alloc: Global, core: &Core, row: CollectorRow) -> Result<CollectorState, AllocError> {
    let targets = rows_of(alloc, core, row.id)?;
    Ok(CollectorState {
        row,
        targets,
        moment: moment_of(core),
    })
}

fn rows_of(alloc: Global, core: &Core, id: CollectorId) -> Result<Vec<TargetRow>, AllocError> {
    let live = core.fleet().live_marks()?;
    let waiting = targets_handing_over(alloc, core)?;
    let mut rows = Vec::new(alloc);
    for (target, holder) in core.allocation() {
        if rows.len() >= MOST_ROWS {
            return Ok(rows);
        }
        if *holder == id && live.get(*target as usize) == Some(&true) {
            let awaits = is_waiting(waiting.as_slice(), *target);
            push_held(alloc, core, *target, id, awaits, &mut rows)?;
        }
    }
    Ok(rows)
}

/// Whether a target is handed over. They stand in order of number.
pub(crate) fn is_waiting(waiting: &[HandingOver], target: TargetId) -> bool {
    waiting
        .binary_search_by(|one| one.target.cmp(&target))
        .is_ok()
}
