//! The search for an allocation, by what the settings say.
use crate::shared::Shared;
use alloc_desk::{Pass, ReallocateError, Reallocated, SpreadError};
use kept_journal::JournalName;
use service_settings::Spread;
use service_state::EventKind;
use std::sync::Wait;
use std::sync::ledger::Ledger;

/// How often a plan is searched again at once where other events came between.
const TRIES: u32 = 4;

/// Why a search did not end.
#[derive(Clone, Copy, PartialEq, Eq)]
pub(crate) enum NotReallocated {
    /// The journal has its most entries.
    JournalFull,
    /// No memory was left.
    Memory,
    /// The last number of an allocation is given.
    NumbersSpent,
    /// Other events came between each time.
    Overtaken,
}

impl From<ReallocateError> for NotReallocated {
    fn from(error: ReallocateError) -> NotReallocated {
        match error {
            ReallocateError::JournalFull => NotReallocated::JournalFull,
            ReallocateError::Memory => NotReallocated::Memory,
            ReallocateError::NumbersSpent => NotReallocated::NumbersSpent,
            ReallocateError::Overtaken(_) => NotReallocated::Overtaken,
        }
    }
}

impl From<SpreadError> for NotReallocated {
    fn from(error: SpreadError) -> NotReallocated {
        match error {
            SpreadError::JournalFull => NotReallocated::JournalFull,
            SpreadError::Memory => NotReallocated::Memory,
            SpreadError::NumbersSpent => NotReallocated::NumbersSpent,
            SpreadError::Overtaken(_) => NotReallocated::Overtaken,
        }
    }
}

impl<R: Wait + Copy, L: Ledger, B: Ledger, N: JournalName> Shared<R, L, B, N> {
    /// Searches for an allocation of the moment and has it published: the best one, or where loads are made even the best one
    /// within caps that cost no coverage.
    pub(crate) fn search(&self, pass: &mut Pass<L, B, N>) -> Result<Reallocated, NotReallocated> {
        match self.spread {
            Some(Spread { slack, most_moves }) => Ok(
                self.desk.spread(
                    &self.rt,
                    self.alloc,
                    pass,
                    TRIES,
                    slack,
                    self.by_job.as_slice(),
                    most_moves,
                )?,
            ),
            None => Ok(self.desk.reallocate(&self.rt, self.alloc, pass, TRIES)?),
        }
    }

    /// What event publishes an allocation.
    pub(crate) fn published_by(&self) -> EventKind {
        match self.spread {
            Some(_) => EventKind::Spread,
            None => EventKind::Install,
        }
    }

    /// Whether an allocation that is published may stop before loads are even, since moves for that are bounded.
    pub(crate) fn bounds_moves(&self) -> bool {
        match self.spread {
            Some(spread) => spread.most_moves.is_some(),
            None => false,
        }
    }
}
