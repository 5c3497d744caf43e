//! A report to the allocator, and what it says of the list that it is made by.
ghost use Rattle.std.specs.Prelude.{◌≡◌, IfOk};
ghost use Rattle.agent_core.specs.Told.{report_of};

use crate::slot::Point;
use crate::target::{Listed, Series};
use lists::Plain;
use scrape_books::Outcome;
use std::alloc::AllocError;

/// What the allocator says of a list: whose it is, of which epoch and allocation, and which round is open.
#[derive(Clone, Copy, Debug, PartialEq, Eq)]
pub struct Head {
    pub collector: u32,
    pub epoch: u64,
    pub number: u32,
    pub round: u32,
}

/// A report of one scrape: of this series, at this time.
#[derive(Debug, Drop)]
pub struct Report {
    pub head: Head,
    pub target: u32,
    pub series: Series,
    /// When the scrape began, in milliseconds.
    pub time: u64,
    pub outcome: Outcome,
}

/// The report of a target's scrape, by a list with this head.
pub(crate) fn report_of(head: Head, listed: &Listed, point: Point) -> Result<Report, AllocError>
    ensures { IfOk result (λ r. r ≡ report_of head listed.now point) }
{
    Ok(Report {
        head,
        target: listed.target,
        series: listed.series.copy()?,
        time: point.time,
        outcome: point.outcome,
    })
}
