//! Which scrape of a series is reported next.
ghost use Rattle.std.specs.Prelude.{◌≡◌, IfOk};
ghost use Rattle.agent_core.specs.Told.{slot};

use scrape_books::Outcome;
use std::alloc::{AllocError, Global};

/// A scrape, as Prometheus tells of it.
#[derive(Clone, Copy, PartialEq, Eq)]
pub struct Point {
    /// When it began, in milliseconds.
    pub time: u64,
    pub outcome: Outcome,
}

/// Of the scrapes behind a mark, which are in order of time, the last but one, or the only one. So each is reported in its turn, the oldest first,
/// and at most the two youngest wait.
pub(crate) fn slot(alloc: Global, mark: u64, points: &[Point]) -> Result<Option<Point>, AllocError>
    ensures { IfOk result (λ o. o ≡ slot mark points.now) }
{
    let fresh: Vec<Point> = points
        .iter()
        .copied()
        .filter(|point| mark < point.time)
        .collect(alloc)?;
    Ok(fresh.get(fresh.len().saturating_sub(2)).copied())
}
