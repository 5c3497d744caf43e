//! A job at a moment.
use crate::target_rows::{push_held, push_row};
use crate::uncovered::{Uncovered, uncovered_of};
use allocation_core::Core;
use fleet_events::{CollectorId, TargetId};
use lists::{List, Plain, Text};
use service_pages::{Coverage, JobShare, Moment, TargetRow};
use std::alloc::{AllocError, Global};

/// A job at a moment.
#[derive(Drop)]
pub struct JobState {
    /// How many targets are live.
    pub live: u32,
    pub uncovered: Uncovered,
    /// What live collectors hold of it, of those that hold a target.
    pub shares: Vec<JobShare>,
    /// Its first targets: those that nobody holds, those that are handed over, and the others.
    pub targets: Vec<TargetRow>,
    pub moment: Moment,
}

impl JobState {
    /// How many live targets nobody holds.
    pub fn uncovered(&self) -> u32 {
        count(self.uncovered.full.len()).saturating_add(self.unreached())
    }

    /// How many of them no collector reaches that is not draining.
    pub fn unreached(&self) -> u32 {
        count(self.uncovered.unreached.len())
    }

    pub fn handing_over(&self) -> u32 {
        count(self.uncovered.handing_over.len())
    }

    /// How many live targets a live collector holds.
    pub fn covered(&self) -> u32 {
        self.live.saturating_sub(self.uncovered())
    }
}

/// The job at a place, with so many rows of targets at most.
pub fn job_state(
    alloc: Global,
    core: &Core,
    place: usize,
    most_rows: usize,
) -> Result<JobState, AllocError> {
    let live = core.fleet().live_marks()?;
    let sight = Sight {
        alloc,
        core,
        place,
        live: live.as_slice(),
    };
    let uncovered = uncovered_of(alloc, core, place)?;
    match sight.shares_and_rows(&uncovered, most_rows) {
        Ok((shares, targets)) => Ok(JobState {
            live: sight.count_live(),
            uncovered,
            shares,
            targets,
            moment: moment_of(core),
        }),
        Err(error) => {
            drop(uncovered);
            Err(error)
        }
    }
}

pub(crate) fn moment_of(core: &Core) -> Moment {
    Moment {
        allocation: core.current(),
        round: core.round(),
    }
}

fn count(length: usize) -> u32 {
    match u32::try_from(length) {
        Ok(count) => count,
        Err(_) => u32::MAX,
    }
}

/// What is looked at: the job at a place, and which of all targets are live.
#[derive(Clone, Copy)]
struct Sight<'a> {
    alloc: Global,
    core: &'a Core,
    place: usize,
    live: &'a [bool],
}

impl Sight<'_> {
    fn count_live(&self) -> u32 {
        let mut count: u32 = 0;
        for (known, is_live) in self.core.fleet().known().iter().zip(self.live.iter()) {
            if *is_live && known.job == self.place {
                count = count.saturating_add(1);
            }
        }
        count
    }

    /// Whether a target is live and of the job.
    fn has(&self, target: TargetId) -> bool {
        let is_of = match self.core.fleet().known().get(target as usize) {
            Some(known) => known.job == self.place,
            None => false,
        };
        is_of && self.live.get(target as usize) == Some(&true)
    }

    fn shares_and_rows(
        &self,
        uncovered: &Uncovered,
        most: usize,
    ) -> Result<(Vec<JobShare>, Vec<TargetRow>), AllocError> {
        let shares = self.shares()?;
        match self.rows(uncovered, most) {
            Ok(rows) => Ok((shares, rows)),
            Err(error) => {
                drop(shares);
                Err(error)
            }
        }
    }

    fn shares(&self) -> Result<Vec<JobShare>, AllocError> {
        let counts = self.held_counts()?;
        let mut shares = Vec::new(self.alloc);
        for (collector, held) in self.core.collectors().iter().zip(counts.iter()) {
            if *held > 0 {
                let name = Text::from_str(self.alloc, collector.name.as_str())?;
                shares.push(JobShare {
                    id: collector.id,
                    name,
                    held: *held,
                })?;
            }
        }
        Ok(shares)
    }

    /// How many of the job's live targets each live collector holds, in order of number.
    fn held_counts(&self) -> Result<Vec<u32>, AllocError> {
        let mut counts = Vec::new(self.alloc);
        for _ in self.core.collectors() {
            counts.push(0)?;
        }
        for (target, holder) in self.core.allocation() {
            if self.has(*target) {
                count_one(self.core, *holder, counts.as_mut_slice());
            }
        }
        Ok(counts)
    }

    fn rows(&self, uncovered: &Uncovered, most: usize) -> Result<Vec<TargetRow>, AllocError> {
        let mut rows = Vec::new(self.alloc);
        match self.push_rows(uncovered, most, &mut rows) {
            Ok(()) => Ok(rows),
            Err(error) => {
                drop(rows);
                Err(error)
            }
        }
    }

    fn push_rows(
        &self,
        uncovered: &Uncovered,
        most: usize,
        rows: &mut Vec<TargetRow>,
    ) -> Result<(), AllocError> {
        for number in uncovered.unreached.iter().take(most) {
            push_row(self.alloc, self.core, *number, Coverage::Unreached, rows)?;
        }
        for number in uncovered.full.iter().take(most.saturating_sub(rows.len())) {
            push_row(self.alloc, self.core, *number, Coverage::Full, rows)?;
        }
        let handing_over = uncovered.handing_over.as_slice();
        self.push_covered(handing_over, true, most, rows)?;
        self.push_covered(handing_over, false, most, rows)
    }

    /// Adds the rows of the held targets that are handed over, or of those that are not, until there are so many rows.
    fn push_covered(
        &self,
        handing_over: &[TargetId],
        awaits: bool,
        most: usize,
        rows: &mut Vec<TargetRow>,
    ) -> Result<(), AllocError> {
        for (target, holder) in self.core.allocation() {
            if rows.len() >= most {
                return Ok(());
            }
            let is_waiting = handing_over.binary_search(target).is_ok();
            if is_waiting == awaits && self.has(*target) {
                push_held(self.alloc, self.core, *target, *holder, awaits, rows)?;
            }
        }
        Ok(())
    }
}

fn count_one(core: &Core, holder: CollectorId, counts: &mut [u32]) {
    let place = core
        .collectors()
        .binary_search_by(|collector| collector.id.cmp(&holder));
    if let Ok(place) = place {
        if let Some(count) = counts.get_mut(place) {
            *count = count.saturating_add(1);
        }
    }
}

/// How many targets collectors hold, by their names.
pub fn held_by_name(alloc: Global, shares: &[JobShare]) -> Result<List<(Text, u32)>, AllocError> {
    let mut held = List::new(alloc);
    for share in shares {
        held.push((share.name.copy()?, share.held))?;
    }
    Ok(held)
}
