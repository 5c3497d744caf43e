//! Live targets that have a text, at a moment.
use crate::found::MOST_FOUND;
use crate::handing_over::targets_handing_over;
use crate::one_collector::is_waiting;
use crate::one_job::moment_of;
use crate::target_rows::push_live;
use allocation_core::Core;
use fleet_events::TargetId;
use service_pages::{Moment, Rows, ShownFound, TargetRow};
use std::alloc::{AllocError, Global};

/// Live targets that have a text, at a moment.
#[derive(Drop)]
pub struct FoundState {
    /// How many they are.
    pub all: u32,
    /// The first of them, in order of number.
    pub targets: Vec<TargetRow>,
    pub moment: Moment,
}

impl FoundState {
    /// What the page of a search for a text shows.
    pub fn shown<'a>(&'a self, text: &'a str) -> ShownFound<'a> {
        ShownFound {
            text,
            targets: Rows {
                first: self.targets.as_slice(),
                all: u64::from(self.all),
            },
            moment: self.moment,
        }
    }
}

/// Those of these targets that are live.
pub fn found_state(
    alloc: Global,
    core: &Core,
    numbers: &[TargetId],
) -> Result<FoundState, AllocError> {
    let live = core.fleet().live_marks()?;
    let targets = rows_of(alloc, core, live.as_slice(), numbers)?;
    Ok(FoundState {
        all: count_live(live.as_slice(), numbers),
        targets,
        moment: moment_of(core),
    })
}

fn count_live(live: &[bool], numbers: &[TargetId]) -> u32 {
    let mut count: u32 = 0;
    for number in numbers {
        if is_live(live, *number) {
            count = count.saturating_add(1);
        }
    }
    count
}

fn is_live(live: &[bool], number: TargetId) -> bool {
    live.get(number as usize) == Some(&true)
}

fn rows_of(
    alloc: Global,
    core: &Core,
    live: &[bool],
    numbers: &[TargetId],
) -> Result<Vec<TargetRow>, AllocError> {
    let waiting = targets_handing_over(alloc, core)?;
    let mut rows = Vec::new(alloc);
    for number in numbers {
        if rows.len() >= MOST_FOUND {
            return Ok(rows);
        }
        if is_live(live, *number) {
            let awaits = is_waiting(waiting.as_slice(), *number);
            push_live(alloc, core, *number, awaits, &mut rows)?;
        }
    }
    Ok(rows)
}
