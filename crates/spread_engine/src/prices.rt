//! Prices that are to certify pairs, guessed in one look at each pair. Whoever uses them judges them.
use crate::board::Board;
use crate::groups::Groups;
use crate::numbers::{NONE, count_of, is_marked, mark, number_at, put, repeated};
use price_certificate::Instance;
use std::alloc::{AllocError, Global};

/// A price for each item and for each bin.
#[derive(Drop)]
pub(crate) struct Prices {
    pub(crate) of_items: Vec<u32>,
    pub(crate) of_bins: Vec<u32>,
}

/// The bins of a row that are lower come up to this height.
fn raise(heights: &mut Vec<u32>, row: &[u32], height: u32) {
    for bin in row {
        if number_at(heights.as_slice(), *bin) < height {
            put(heights, *bin, height);
        }
    }
}

/// Each bin that an item without a bin may use comes up to this height.
fn raise_uncovered(
    alloc: Global,
    instance: &Instance,
    board: &Board,
    heights: &mut Vec<u32>,
    height: u32,
) -> Result<(), AllocError> {
    let mut covered = vec![in alloc; false; instance.items()]?;
    for item in &board.items {
        mark(&mut covered, *item);
    }
    for item in 0..instance.items() {
        if !is_marked(covered.as_slice(), item as u32) {
            raise(heights, instance.row(item), height);
        }
    }
    Ok(())
}

/// The bins of a row that are lower come up to this height, and are to be looked from.
fn raise_and_ask(
    heights: &mut Vec<u32>,
    queue: &mut Vec<u32>,
    row: &[u32],
    height: u32,
) -> Result<(), AllocError> {
    for bin in row {
        if number_at(heights.as_slice(), *bin) < height {
            put(heights, *bin, height);
            queue.push(*bin)?;
        }
    }
    Ok(())
}

/// The bins that items of this bin may use come up to its height.
fn raise_from(
    instance: &Instance,
    board: &Board,
    heights: &mut Vec<u32>,
    queue: &mut Vec<u32>,
    bin: u32,
) -> Result<(), AllocError> {
    let height = number_at(heights.as_slice(), bin);
    let mut place = board.first(bin);
    for _ in 0..instance.items() {
        if place == NONE {
            break;
        }
        let row = instance.row(board.item_of(place));
        raise_and_ask(heights, queue, row, height)?;
        place = board.next(place);
    }
    Ok(())
}

/// The bins from the highest to the lowest.
fn highest_first(alloc: Global, heights: &[u32]) -> Result<Vec<(u32, u32)>, AllocError> {
    let mut order = Vec::with_capacity(alloc, heights.len())?;
    let mut bin = 0u32;
    for height in heights {
        order.push((NONE - *height, bin))?;
        bin = bin.saturating_add(1);
    }
    order.sort()?;
    Ok(order)
}

/// Bins come up to the height of the bins whose items may use them, and these to that of others, from the highest down, so that no bin is
/// looked from twice.
fn flood(
    alloc: Global,
    instance: &Instance,
    board: &Board,
    heights: &mut Vec<u32>,
) -> Result<(), AllocError> {
    let order = highest_first(alloc, heights.as_slice())?;
    let mut done = vec![in alloc; false; instance.bins()]?;
    let mut queue = Vec::new(alloc);
    for (_, first) in order {
        queue.push(first)?;
        for _ in 0..instance.bins().saturating_add(1) {
            let Some(bin) = queue.pop() else {
                break;
            };
            if !is_marked(done.as_slice(), bin) {
                mark(&mut done, bin);
                raise_from(instance, board, heights, &mut queue, bin)?;
            }
        }
    }
    Ok(())
}

/// Prices for pairs that are worth `top` less the height of their bin.
pub(crate) fn prices_over(
    alloc: Global,
    instance: &Instance,
    pairs: &[(u32, u32)],
    heights: &[u32],
    top: u32,
) -> Result<Prices, AllocError> {
    let board = Board::new(alloc, instance, &Groups::none(alloc), pairs)?;
    let mut raised = Vec::from_slice(alloc, heights)?;
    raise_uncovered(alloc, instance, &board, &mut raised, top)?;
    flood(alloc, instance, &board, &mut raised)?;
    let of_items = item_prices(alloc, instance, pairs, raised.as_slice(), top)?;
    let of_bins = differences(alloc, raised.as_slice(), heights)?;
    Ok(Prices { of_items, of_bins })
}

/// By how much each of the first numbers is above the second.
fn differences(alloc: Global, upper: &[u32], lower: &[u32]) -> Result<Vec<u32>, AllocError> {
    let mut differences = Vec::with_capacity(alloc, upper.len())?;
    for place in 0..count_of(upper) {
        let difference = number_at(upper, place).saturating_sub(number_at(lower, place));
        differences.push(difference)?;
    }
    Ok(differences)
}

/// An item's price is what is left of the top above the height of its bin.
fn item_prices(
    alloc: Global,
    instance: &Instance,
    pairs: &[(u32, u32)],
    heights: &[u32],
    top: u32,
) -> Result<Vec<u32>, AllocError> {
    let mut prices = repeated(alloc, 0, instance.items())?;
    for pair in pairs {
        let price = top.saturating_sub(number_at(heights, pair.1));
        put(&mut prices, pair.0, price);
    }
    Ok(prices)
}
