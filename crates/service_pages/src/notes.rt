//! What a service tells of its sources and of its last allocations.
ghost use Rattle.std.specs.Prelude.{◌≡◌, ◌-◌};
ghost use Rattle.std.specs.List.{sum_by};
ghost use Rattle.service_pages.specs.Counted.{fails, told};

use lists::{List, Plain, Text};
use std::alloc::{AllocError, Global};

/// What is told of a discovery source.
#[derive(Drop)]
pub struct SourceNote {
    pub job: Text,
    /// The number of the source in its job, from 1.
    pub number: u32,
    pub refreshes: u64,
    pub failures: u64,
    /// When it last gave its list, in seconds since 1970. 0 where it gave none.
    pub succeeded: u64,
    /// When it was refreshed last, as a timestamp (RFC 3339). Empty where it was not.
    pub at: Text,
    /// Why the last refresh failed. Empty where it did not.
    pub fault: Text,
    /// What its last list has. None where it gave none.
    pub counts: Option<ListCounts>,
}

/// How many targets a source's list has, and how many are left out of it.
#[derive(Clone, Copy, PartialEq, Eq)]
pub struct ListCounts {
    pub targets: u64,
    /// How many a rule drops.
    pub dropped: u64,
    /// How many have no address after the rules.
    pub without_address: u64,
}

/// What is told of a published allocation.
#[derive(Drop)]
pub struct AllocationNote {
    pub number: u32,
    /// When it was published, as a timestamp (RFC 3339).
    pub at: Text,
    /// How many targets somebody holds.
    pub covered: u64,
    /// How many live targets a live collector held before and does not hold any more.
    pub moved: u64,
    /// How many targets are left with a draining collector.
    pub left: u64,
    /// How long it took to find and publish, in milliseconds.
    pub milliseconds: u64,
    /// What moved from whom to whom: the first rows.
    pub moves: List<MoveNote>,
    /// How many of the moved targets no row of `moves` tells.
    pub more_moves: u64,
}

/// Targets of a job that moved alike.
#[derive(Drop)]
pub struct MoveNote {
    pub job: Text,
    /// The collector that held them.
    pub from: Text,
    /// The one that holds them now. None where nobody does.
    pub to: Option<Text>,
    /// How many they are.
    pub count: u64,
}

/// How many targets a collector is to hold, where loads are made even.
#[derive(Clone, Copy)]
pub struct LoadNote {
    /// The collector's number.
    pub collector: u32,
    /// How many it holds where the loads are the most even. None where the search does not tell it.
    pub even: Option<u64>,
    /// How many it may hold by the last search.
    pub cap: u64,
}

impl SourceNote {
    /// What is told of a source that was not asked yet.
    pub fn unasked(alloc: Global, job: Text, number: u32) -> SourceNote {
        SourceNote {
            job,
            number,
            refreshes: 0,
            failures: 0,
            succeeded: 0,
            at: Text::from_string(String::new(alloc)),
            fault: Text::from_string(String::new(alloc)),
            counts: None,
        }
    }

    pub fn copy(&self) -> Result<SourceNote, AllocError> {
        let job = self.job.copy()?;
        let at = self.at.copy()?;
        let fault = self.fault.copy()?;
        Ok(SourceNote {
            job,
            number: self.number,
            refreshes: self.refreshes,
            failures: self.failures,
            succeeded: self.succeeded,
            at,
            fault,
            counts: self.counts,
        })
    }

    /// Whether the last refresh failed.
    pub(crate) fn fails(&self) -> bool
        ensures { result ≡ fails self.now }
    {
        !self.fault.as_str().is_empty()
    }
}

impl AllocationNote {
    pub fn copy(&self) -> Result<AllocationNote, AllocError> {
        let at = self.at.copy()?;
        let moves = self.moves.copy()?;
        Ok(AllocationNote {
            number: self.number,
            at,
            covered: self.covered,
            moved: self.moved,
            left: self.left,
            milliseconds: self.milliseconds,
            moves,
            more_moves: self.more_moves,
        })
    }
}

impl Plain for MoveNote {
    fn copy(&self) -> Result<MoveNote, AllocError> {
        let job = self.job.copy()?;
        let from = self.from.copy()?;
        let to = self.to.copy()?;
        Ok(MoveNote {
            job,
            from,
            to,
            count: self.count,
        })
    }

    fn same(&self, other: &MoveNote) -> bool {
        self.job.same(&other.job)
            && self.from.same(&other.from)
            && self.to.same(&other.to)
            && self.count == other.count
    }
}

/// How many of so many moved targets no row tells.
pub fn untold_moves(moved: u64, rows: &[MoveNote]) -> u64
    ensures { result ≡ moved - sum_by told rows.now }
{
    let mut untold = moved;
    for row in rows {
        untold = untold.saturating_sub(row.count);
    }
    untold
}
