//! Levels and prices that are to show that pairs are the most even. Whoever publishes them judges them.
ghost use Rattle.std.specs.Prelude.{IfOk, IfSome};
ghost use Rattle.spread_engine.specs.Telling.{IsTold};

use crate::board::loads_of;
use crate::evenest::Evenest;
use crate::groups::Groups;
use crate::numbers::{NONE, count_of, number_at, put, repeated};
use crate::prices::{Prices, prices_over};
use lists::List;
use price_certificate::Instance;
use spread_certificate::Even;
use std::alloc::{AllocError, Global};

/// The level of each bin's group, and this one where the bin drains.
fn heights_of(
    alloc: Global,
    owners: &[u32],
    levels: &[u32],
    draining: u32,
) -> Result<Vec<u32>, AllocError> {
    let mut heights = repeated(alloc, draining, owners.len())?;
    for bin in 0..count_of(owners) {
        let owner = number_at(owners, bin);
        if owner != NONE {
            put(&mut heights, bin, number_at(levels, owner));
        }
    }
    Ok(heights)
}

/// The pairs of the witness, where its loads are not those of the plan.
fn witness_beside(
    alloc: Global,
    owners: &[u32],
    plan: &[(u32, u32)],
    loads: &[u32],
    pairs: Vec<(u32, u32)>,
) -> Result<Option<List<(u32, u32)>>, AllocError> {
    let of_plan = loads_of(alloc, owners, loads.len(), plan)?;
    if of_plan.as_slice() == loads {
        return Ok(None);
    }
    Ok(Some(List::from_vec(pairs)))
}

/// What is to show that these are the most even pairs, beside a plan, where each collector is one group. Else nothing could be shown: its
/// form has one level for all of a collector's bins.
pub(crate) fn even_if_shown(
    alloc: Global,
    instance: &Instance,
    jobs: u32,
    slack: u32,
    groups: &Groups,
    evenest: Evenest,
    plan: &[(u32, u32)],
) -> Result<Option<Even>, AllocError>
    ensures { IfOk result (λ o. IfSome o (IsTold jobs slack)) }
{
    if !groups.are_collectors() {
        return Ok(None);
    }
    let even = even_beside(alloc, instance, jobs, slack, groups, evenest, plan)?;
    Ok(Some(even))
}

/// What is to show that these are the most even pairs, beside a plan of which no collector has more than these and so much of a hundred
/// besides.
fn even_beside(
    alloc: Global,
    instance: &Instance,
    jobs: u32,
    slack: u32,
    groups: &Groups,
    evenest: Evenest,
    plan: &[(u32, u32)],
) -> Result<Even, AllocError>
    ensures { IfOk result (IsTold jobs slack) }
{
    let Evenest {
        pairs,
        loads,
        levels,
    } = evenest;
    let keep = levels.iter().copied().max().unwrap_or(0).saturating_add(1);
    let owners = groups.owners.as_slice();
    let heights = heights_of(alloc, owners, levels.as_slice(), keep)?;
    let prices = prices_over(alloc, instance, pairs.as_slice(), heights.as_slice(), keep)?;
    let Prices { of_items, of_bins } = prices;
    let witness = witness_beside(alloc, owners, plan, loads.as_slice(), pairs)?;
    Ok(Even {
        jobs,
        slack,
        levels: List::from_vec(levels),
        keep,
        item_prices: List::from_vec(of_items),
        bin_prices: List::from_vec(of_bins),
        witness,
    })
}
