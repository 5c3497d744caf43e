//! The most even loads that shifts lead to.
use crate::board::Board;
use crate::groups::Groups;
use crate::numbers::{NONE, count_of, is_marked, mark, number_at, put, repeated};
use crate::ways::Search;
use price_certificate::Instance;
use std::alloc::{AllocError, Global};

/// Pairs whose loads are as even as shifts could make them.
#[derive(Drop)]
pub(crate) struct Evenest {
    pub(crate) pairs: Vec<(u32, u32)>,
    /// How many items each group has.
    pub(crate) loads: Vec<u32>,
    /// Each group has so many items, or one more, if the shifts came to their end.
    pub(crate) levels: Vec<u32>,
}

/// Shifts these pairs until no load can be lowered.
pub(crate) fn evenest_from(
    alloc: Global,
    instance: &Instance,
    groups: &Groups,
    pairs: &[(u32, u32)],
) -> Result<Evenest, AllocError> {
    let mut board = Board::new(alloc, instance, groups, pairs)?;
    board.shift_to_lighter(instance)?;
    let mut levels = repeated(alloc, 0, board.loads.len())?;
    level_off(alloc, instance, groups, &mut board, &mut levels)?;
    let pairs = board.pairs(alloc)?;
    let Board { loads, .. } = board;
    Ok(Evenest {
        pairs,
        loads,
        levels,
    })
}

/// Lowers the fullest groups by one, and again, until none can be. Those are left alone then with all that their items could go to, and
/// the next fullest ones are lowered.
fn level_off(
    alloc: Global,
    instance: &Instance,
    groups: &Groups,
    board: &mut Board,
    levels: &mut Vec<u32>,
) -> Result<(), AllocError> {
    let mut search = Search::new(alloc, instance, groups, board)?;
    let mut bounds = repeated(alloc, 0, board.loads.len())?;
    for _ in 0..u64::MAX {
        let below = fullest(&search, board).saturating_sub(1);
        if below == 0 || search.is_over() {
            break;
        }
        bounds.fill(below);
        if search.lower_all(instance, board, bounds.as_slice())? {
            close(&mut search, levels, below);
        }
    }
    Ok(())
}

/// The most items of a group that may be lowered still.
fn fullest(search: &Search, board: &Board) -> u32 {
    let mut most = 0;
    for group in 0..count_of(search.opened.as_slice()) {
        if !is_marked(search.closed.as_slice(), group) {
            most = most.max(board.load(group));
        }
    }
    most
}

/// The groups that the search came to are left alone from now on. Each has so many items, or one more.
fn close(search: &mut Search, levels: &mut Vec<u32>, level: u32) {
    for group in 0..count_of(search.opened.as_slice()) {
        if number_at(search.opened.as_slice(), group) != NONE
            && !is_marked(search.closed.as_slice(), group)
        {
            mark(&mut search.closed, group);
            put(levels, group, level);
        }
    }
}
