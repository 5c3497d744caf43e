//! Shifts until no group has more items than it may.
use crate::board::Board;
use crate::groups::Groups;
use crate::numbers::{count_of, number_at};
use crate::ways::Search;
use price_certificate::Instance;
use std::alloc::{AllocError, Global};

/// For each group as many percent more than this load as its slack has, rounded up.
fn bounds_over(alloc: Global, groups: &Groups, loads: &[u32]) -> Result<Vec<u32>, AllocError> {
    let mut bounds = Vec::with_capacity(alloc, loads.len())?;
    for group in 0..count_of(loads) {
        bounds.push(bound_over(number_at(loads, group), groups.slack(group)))?;
    }
    Ok(bounds)
}

fn bound_over(load: u32, slack: u32) -> u32 {
    let parts = u64::from(load).saturating_mul(100 + u64::from(slack));
    u32::try_from(parts.div_ceil(100)).unwrap_or(u32::MAX)
}

/// Shifts of these pairs, each a place and its new bin, after which no group has more items than its even load and its slack of it, as far
/// as shifts lead there.
pub(crate) fn shifts_within(
    alloc: Global,
    instance: &Instance,
    groups: &Groups,
    pairs: &[(u32, u32)],
    even: &[u32],
) -> Result<Vec<(u32, u32)>, AllocError> {
    let bounds = bounds_over(alloc, groups, even)?;
    let mut board = Board::new(alloc, instance, groups, pairs)?;
    board.shift_into_bounds(instance, bounds.as_slice())?;
    let mut search = Search::new(alloc, instance, groups, &board)?;
    let _ = search.lower_all(instance, &mut board, bounds.as_slice())?;
    let Board { shifts, .. } = board;
    Ok(shifts)
}
