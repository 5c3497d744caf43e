//! The parts of an instance: what fits together, and the tables that are made of them.
ghost use Rattle.std.specs.Prelude.{◌≡◌, ◌↔◌, ◌≤◌, ◌<◌, List, Option, None, false, replicate, All, IsTrue, IfOk, length};
ghost use Rattle.price_certificate.specs.Problem.{IsRow, IsReach, IsPreceding, IsPlaced, IsMarked};
ghost use Rattle.price_certificate.specs.Rows.{rows_of};
ghost use Rattle.price_certificate.specs.declared.shape.InstanceError.TheVariants.{Memory};

use crate::rows::{Rows, has_few_pairs, has_rows};
use std::alloc::{AllocError, Global};
use thiserror::Error;

/// Why there is no instance.
#[derive(Debug, Drop, Error)]
pub enum InstanceError {
    /// The parts do not fit together, or pass a limit.
    #[error("the parts make no instance")]
    Shape,
    #[error("no memory")]
    Memory,
}

impl From<AllocError> for InstanceError {
    ghost from_gives = { λ _ e. e ≡ Memory };

    fn from(_error: AllocError) -> InstanceError {
        InstanceError::Memory
    }
}

/// The most items of an instance.
pub const MOST_ITEMS: usize = 16384;

/// The most bins of an instance.
pub const MOST_BINS: usize = 16384;

/// The most allowed pairs of an instance.
pub const MOST_PAIRS: usize = 4194304;

/// Whether the limits and the rows are those of an instance.
pub(crate) fn has_reach(limits: &[u32], rows: &Rows) -> bool
    ensures { IsTrue result ↔ IsReach limits.now (rows_of rows.now) }
{
    if rows.list_of.len() > MOST_ITEMS || limits.len() > MOST_BINS {
        return false;
    }
    if !has_few_pairs(rows.lists.as_slice(), rows.list_of.as_slice()) {
        return false;
    }
    has_rows(limits.len(), rows)
}

/// Whether the bins ascend and are below the number of bins.
pub(crate) fn is_row(bins: usize, row: &[u32]) -> bool
    ensures { IsTrue result ↔ IsRow bins row.now }
{
    for i in 0..row.len() {
        if row[i] as usize >= bins {
            return false;
        }
        if i > 0 && row[i] <= row[i - 1] {
            return false;
        }
    }
    true
}

/// For each item the bin beside it.
pub(crate) fn places(
    alloc: Global,
    items: usize,
    bins: usize,
    pairs: &[(u32, u32)],
) -> Result<Vec<Option<u32>>, InstanceError>
    ensures ok { IfOk result (λ v. IsPreceding items bins pairs.now × IsPlaced items pairs.now v.items) }
    ensures shape { result ≡ Err InstanceError.Shape → ¬ IsPreceding items bins pairs.now }
{
    let mut places = nowhere(alloc, items)?;
    for i in 0..pairs.len() {
        let (item, bin) = pairs[i];
        if item as usize >= items || bin as usize >= bins {
            return Err(InstanceError::Shape);
        }
        if places[item as usize].is_some() {
            return Err(InstanceError::Shape);
        }
        places[item as usize] = Some(bin);
    }
    Ok(places)
}

/// No bin for any item.
pub(crate) fn nowhere(alloc: Global, items: usize) -> Result<Vec<Option<u32>>, AllocError>
    ensures { IfOk result (λ v. v.items ≡ replicate items None) }
{
    vec![in alloc; None; items]
}

/// For each bin whether it is one of these.
pub(crate) fn marks(alloc: Global, bins: usize, draining: &[u32]) -> Result<Vec<bool>, AllocError>
    requires { All (λ bin. bin < bins) draining.now }
    ensures { IfOk result (λ v. IsMarked bins draining.now v.items) }
{
    let mut marks = no_marks(alloc, bins)?;
    for i in 0..draining.len() {
        marks[draining[i] as usize] = true;
    }
    Ok(marks)
}

/// So many marks, none of them set.
pub(crate) fn no_marks(alloc: Global, count: usize) -> Result<Vec<bool>, AllocError>
    ensures { IfOk result (λ v. v.items ≡ replicate count false) }
{
    vec![in alloc; false; count]
}
