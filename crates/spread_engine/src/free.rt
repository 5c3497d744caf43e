//! Prices where nothing was before and there are no caps. They are guessed, and the guess is judged.
ghost use Rattle.std.specs.Prelude.{IfOk};
ghost use Rattle.price_certificate.specs.Certificate.{IsCertified};

use crate::numbers::{put, repeated};
use crate::prices::{Prices, prices_over};
use assign_engine::solve;
use lists::List;
use price_certificate::{Instance, Plan, Verdict, check};
use std::alloc::{AllocError, Global};

/// How much less a place at each bin is worth: what it costs to be at one that drains.
fn heights_of(alloc: Global, bare: &Instance) -> Result<Vec<u32>, AllocError> {
    let mut heights = repeated(alloc, 0, bare.bins())?;
    for bin in 0..bare.bins() {
        if bare.drains(bin) {
            put(&mut heights, bin as u32, bare.items() as u32 + 1);
        }
    }
    Ok(heights)
}

/// The pairs with prices that prove that they cover the most and leave the fewest, if they do.
fn guess(alloc: Global, bare: &Instance, pairs: &[(u32, u32)]) -> Result<Plan, AllocError> {
    let heights = heights_of(alloc, bare)?;
    let top = bare.top_weight().saturating_sub(1);
    let prices = prices_over(alloc, bare, pairs, heights.as_slice(), top)?;
    let Prices { of_items, of_bins } = prices;
    let pairs = Vec::from_slice(alloc, pairs)?;
    Ok(Plan {
        pairs: List::from_vec(pairs),
        item_prices: List::from_vec(of_items),
        bin_prices: List::from_vec(of_bins),
    })
}

/// A certified plan of an instance with nothing before: these pairs, where the guessed prices certify them, or else one that is
/// searched for.
pub(crate) fn free_plan(
    alloc: Global,
    bare: &Instance,
    pairs: &[(u32, u32)],
) -> Result<Plan, AllocError>
    ensures { IfOk result (λ q. IsCertified bare.now q.pairs q.item_prices q.bin_prices) }
{
    let guessed = guess(alloc, bare, pairs)?;
    match check(alloc, bare, &guessed)? {
        Verdict::Best { .. } => Ok(guessed),
        Verdict::Refused(_) => {
            let (plan, _work) = solve(alloc, bare)?;
            Ok(plan)
        }
    }
}
