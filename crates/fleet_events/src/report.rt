//! A collector's report of one scrape.
use crate::ids::{AllocationNumber, CollectorId, Round, TargetId};
use lists::Plain;
use scrape_books::Outcome;
use std::alloc::AllocError;

/// What a scrape of a target came to.
#[derive(Clone, Copy, Debug, PartialEq, Eq)]
pub struct Report {
    /// Who reports.
    pub collector: CollectorId,
    /// The allocation by which it holds the target.
    pub allocation: AllocationNumber,
    pub target: TargetId,
    /// The round of the scrape.
    pub round: Round,
    pub outcome: Outcome,
}

impl Plain for Report {
    fn copy(&self) -> Result<Report, AllocError> {
        Ok(*self)
    }

    fn same(&self, other: &Report) -> bool {
        *self == *other
    }
}
