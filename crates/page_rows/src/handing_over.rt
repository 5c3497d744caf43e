//! Live targets that are handed over: their holders' lists leave them out as long as other lists have them.
use allocation_core::Core;
use fleet_events::{CollectorId, TargetId};
use std::alloc::{AllocError, Global};

/// A live target that its holder's list leaves out, and the collector whose list has it.
#[derive(Clone, Copy, PartialEq, Eq)]
pub struct HandingOver {
    pub target: TargetId,
    /// The collector that is waited for. It may have left.
    pub waits_for: CollectorId,
}

/// The live targets that their holders' lists leave out, in order of number.
pub fn targets_handing_over(alloc: Global, core: &Core) -> Result<Vec<HandingOver>, AllocError> {
    let mut found = Vec::new(alloc);
    if core.slots().iter().all(|slot| *slot == 0) {
        return Ok(found);
    }
    let live = core.fleet().live_marks()?;
    for (target, holder) in core.allocation() {
        if let Some(waits_for) = waited_for(core, live.as_slice(), *target, *holder) {
            found.push(HandingOver {
                target: *target,
                waits_for,
            })?;
        }
    }
    Ok(found)
}

/// The collector whose list has a live target that another one holds.
fn waited_for(
    core: &Core,
    live: &[bool],
    target: TargetId,
    holder: CollectorId,
) -> Option<CollectorId> {
    let slot = *core.slots().get(target as usize)?;
    let is_live = *live.get(target as usize)?;
    let is_left_out = slot != 0 && slot != holder && core.fleet().is_joined(holder);
    if is_live && is_left_out {
        Some(slot)
    } else {
        None
    }
}
