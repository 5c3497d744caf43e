//! The lists of bins of an instance's items, where items may share a list.
ghost use Rattle.std.specs.Prelude.{◌≡◌, ◌≤◌, ◌↔◌, [], All, IfOk, IsTrue, map, slice_index, slice_index_or};
ghost use Rattle.std.specs.List.{range_with_len};
ghost use Rattle.price_certificate.specs.Problem.{IsRow};
ghost use Rattle.price_certificate.specs.Derived.{open_bins};
ghost use Rattle.price_certificate.specs.Reach.{pairs_of};
ghost use Rattle.price_certificate.specs.Rows.{row_at, rows_of};

use crate::shape::{MOST_PAIRS, is_row};
use lists::{List, Plain};
use std::alloc::{AllocError, Global};

/// For each item the bins that it may use, in ascending order. Items may share a list, which then stands here once: `lists` has the
/// lists, and `list_of` for each item the number of its list among them, from 0. An item with another number may use no bin.
#[derive(Debug, Drop)]
pub struct Rows {
    pub lists: List<List<u32>>,
    pub list_of: List<u32>,
}

impl Plain for Rows {
    fn copy(&self) -> Result<Rows, AllocError> {
        let lists = self.lists.copy()?;
        let list_of = self.list_of.copy()?;
        Ok(Rows { lists, list_of })
    }

    fn same(&self, other: &Rows) -> bool {
        self.lists.same(&other.lists) && self.list_of.same(&other.list_of)
    }
}

/// Each list is that of one item.
pub(crate) fn one_each(alloc: Global, lists: List<List<u32>>) -> Result<Rows, AllocError>
    ensures { IfOk result (λ r. rows_of r ≡ lists) }
{
    match numbers_below(alloc, lists.len()) {
        Ok(list_of) => Ok(Rows {
            lists,
            list_of: List::from_vec(list_of),
        }),
        Err(error) => {
            drop(lists);
            Err(error)
        }
    }
}

/// The numbers below a count.
fn numbers_below(alloc: Global, count: usize) -> Result<Vec<u32>, AllocError>
    ensures { IfOk result (λ v. v.items ≡ range_with_len 0 count) }
{
    let count = u32::try_from(count).map_err(|_| AllocError)?;
    let mut numbers = Vec::with_capacity(alloc, count as usize)?;
    for number in 0..count {
        numbers.push(number)?;
    }
    Ok(numbers)
}

/// The list of a number; none past the last.
pub(crate) fn row_at(lists: &[List<u32>], number: u32) -> &[u32]
    ensures { result.now ≡ row_at lists.now number }
{
    match lists.get(number as usize) {
        Some(row) => row.as_slice(),
        None => &[],
    }
}

/// The list of an item; none past the last item.
pub(crate) fn row(rows: &Rows, item: usize) -> &[u32]
    ensures { result.now ≡ slice_index_or (rows_of rows.now) item [] }
{
    match rows.list_of.as_slice().get(item) {
        Some(number) => row_at(rows.lists.as_slice(), *number),
        None => &[],
    }
}

/// Whether each item may use the same bins in both.
pub(crate) fn same_rows(rows: &Rows, others: &Rows) -> bool
    ensures { IsTrue result ↔ (rows_of rows.now ≡ rows_of others.now) }
{
    if rows.list_of.len() != others.list_of.len() {
        return false;
    }
    for item in 0..rows.list_of.len() {
        if row(rows, item) != row(others, item) {
            return false;
        }
    }
    true
}

/// Whether the items have no more than the most pairs.
pub(crate) fn has_few_pairs(lists: &[List<u32>], list_of: &[u32]) -> bool
    ensures { IsTrue result ↔ (pairs_of lists.now list_of.now ≤ MOST_PAIRS) }
{
    let mut left = MOST_PAIRS;
    for number in list_of {
        let length = row_at(lists, *number).len();
        if length > left {
            return false;
        }
        left -= length;
    }
    true
}

/// Whether the list of each item is one of an instance with so many bins. Each list is looked at once, unless one of them is none.
pub(crate) fn has_rows(bins: usize, rows: &Rows) -> bool
    ensures { IsTrue result ↔ All (IsRow bins) (rows_of rows.now) }
{
    are_rows(bins, rows.lists.as_slice())
        || are_rows_at(bins, rows.lists.as_slice(), rows.list_of.as_slice())
}

/// Whether each list is one of an instance with so many bins.
fn are_rows(bins: usize, lists: &[List<u32>]) -> bool
    ensures { IsTrue result ↔ All (IsRow bins) lists.now }
{
    for row in lists {
        if !is_row(bins, row.as_slice()) {
            return false;
        }
    }
    true
}

/// Whether each list of these numbers is.
fn are_rows_at(bins: usize, lists: &[List<u32>], list_of: &[u32]) -> bool
    ensures { IsTrue result ↔ All (IsRow bins) (map (row_at lists.now) list_of.now) }
{
    for number in list_of {
        if !is_row(bins, row_at(lists, *number)) {
            return false;
        }
    }
    true
}

/// Of each list the bins that have a cap above 0.
pub(crate) fn open_rows(alloc: Global, rows: &Rows, caps: &[u32]) -> Result<Rows, AllocError>
    ensures { IfOk result (λ r. rows_of r ≡ map (open_bins caps.now) (rows_of rows.now)) }
{
    let list_of = rows.list_of.copy()?;
    match open_lists(alloc, rows.lists.as_slice(), caps) {
        Ok(lists) => Ok(Rows {
            lists: List::from_vec(lists),
            list_of,
        }),
        Err(error) => {
            drop(list_of);
            Err(error)
        }
    }
}

fn open_lists(
    alloc: Global,
    lists: &[List<u32>],
    caps: &[u32],
) -> Result<Vec<List<u32>>, AllocError>
    ensures { IfOk result (λ v. v.items ≡ map (open_bins caps.now) lists.now) }
{
    let mut open = Vec::with_capacity(alloc, lists.len())?;
    for row in lists {
        let bins = open_row(alloc, row.as_slice(), caps)?;
        open.push(bins)?;
    }
    Ok(open)
}

/// The bins of a list that have a cap above 0.
fn open_row(alloc: Global, row: &[u32], caps: &[u32]) -> Result<List<u32>, AllocError>
    ensures { IfOk result (λ l. l ≡ open_bins caps.now row.now) }
{
    let bins: Vec<u32> = row
        .iter()
        .copied()
        .filter(|bin| cap_of(caps, *bin) > 0)
        .collect(alloc)?;
    Ok(List::from_vec(bins))
}

/// The cap of a bin; 0 past the last one.
fn cap_of(caps: &[u32], bin: u32) -> u32
    ensures { result ≡ slice_index caps.now bin }
{
    match caps.get(bin as usize) {
        Some(cap) => *cap,
        None => 0,
    }
}
