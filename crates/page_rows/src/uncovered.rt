//! The live targets that no list has, and why.
use crate::handing_over::targets_handing_over;
use allocation_core::Core;
use fleet_events::{CollectorId, TargetId};
use std::alloc::{AllocError, Global};

/// The live targets of a job that nobody holds in the current allocation, or that are handed over, in order of number.
#[derive(Debug, Drop)]
pub struct Uncovered {
    /// Those that a collector reaches which is not draining: all such ones are full, or a reallocation is due.
    pub full: Vec<TargetId>,
    /// Those that the list of their collector leaves out, since another list has them.
    pub handing_over: Vec<TargetId>,
    /// Those that no such collector reaches.
    pub unreached: Vec<TargetId>,
}

/// Those of the job at a place.
pub fn uncovered_of(alloc: Global, core: &Core, place: usize) -> Result<Uncovered, AllocError> {
    let marks = uncovered_marks(core)?;
    let mut found = Uncovered {
        full: Vec::new(alloc),
        handing_over: Vec::new(alloc),
        unreached: Vec::new(alloc),
    };
    let known = core.fleet().known().iter().zip(marks.iter());
    for (number, (target, is_uncovered)) in known.enumerate() {
        let Ok(id) = TargetId::try_from(number) else {
            break;
        };
        if *is_uncovered && target.job == place {
            if is_reached(core, number) {
                found.full.push(id)?;
            } else {
                found.unreached.push(id)?;
            }
        }
    }
    for one in targets_handing_over(alloc, core)?.iter() {
        if is_of(core, one.target, place) {
            found.handing_over.push(one.target)?;
        }
    }
    Ok(found)
}

fn is_of(core: &Core, target: TargetId, place: usize) -> bool {
    match core.fleet().known().get(target as usize) {
        Some(known) => known.job == place,
        None => false,
    }
}

/// Which of the known targets are live and held by nobody. A collector that has left holds nothing.
fn uncovered_marks(core: &Core) -> Result<Vec<bool>, AllocError> {
    let mut marks = core.fleet().live_marks()?;
    for (target, collector) in core.allocation() {
        if is_live(core, *collector) {
            if let Some(mark) = marks.get_mut(*target as usize) {
                *mark = false;
            }
        }
    }
    Ok(marks)
}

fn is_live(core: &Core, collector: CollectorId) -> bool {
    let place = core
        .fleet()
        .collectors()
        .binary_search_by(|other| other.id.cmp(&collector));
    place.is_ok()
}

/// Whether some collector reaches a target and is not draining.
pub(crate) fn is_reached(core: &Core, number: usize) -> bool {
    core.fleet().collectors().iter().enumerate().any(|(place, collector)| !collector.draining
        && core.fleet().reaches(place, number))
}
