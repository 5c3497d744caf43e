//! Whether a spread is what it says: one check of each of its two plans and of its levels, and nobody needs to trust who made it.
ghost use Rattle.std.specs.Prelude.{◌≡◌, Some, None, IfOk, IfSome};
ghost use Rattle.price_certificate.specs.Assignment.{IsFeasible, kept, left, moved};
ghost use Rattle.price_certificate.specs.Derived.{bare};
ghost use Rattle.price_certificate.specs.Faults.{fault_of};
ghost use Rattle.spread_certificate.specs.Even.{owner_of, owners_of, IsEvenWithin};
ghost use Rattle.spread_certificate.specs.EvenFaults.{count_fault, witness_fault, witness_of, even_fault};
ghost use Rattle.spread_certificate.specs.Judged.{cap_fault, best_fault, slack_of, spread_verdict, told_fault, spread_fault};
ghost use Rattle.spread_certificate.specs.Loads.{IsEvenest};
ghost use Rattle.spread_certificate.specs.Within.{IsBestWithin};

use crate::even::Even;
use crate::levels::{find_bad_levels, find_bad_shape};
use crate::spread::Spread;
use crate::verdict::{EvenFault, SpreadFault, SpreadVerdict};
use lists::{List, Plain};
use price_certificate::{Fault, Instance, Plan, Verdict, check};
use std::alloc::{AllocError, Global};

/// Whether a spread is the best within its caps, and as even as it tells, or its first fault. It is linear in the allowed pairs.
pub fn judge_spread(
    alloc: Global,
    instance: &Instance,
    spread: &Spread,
) -> Result<SpreadVerdict, AllocError>
    ensures { IfOk result (λ v. v ≡ spread_verdict instance.now spread.now) }
{
    let pairs = spread.plan.pairs.as_slice();
    match check_spread(alloc, instance, spread)? {
        Some(fault) => Ok(SpreadVerdict::Refused(fault)),
        None => Ok(SpreadVerdict::Best {
            covered: pairs.len() as u64,
            left: count_left(instance, pairs),
            moved: count_moved(instance, pairs),
            slack: slack_of(spread),
        }),
    }
}

/// Within which slack the plan is even, if the spread tells that.
fn slack_of(spread: &Spread) -> Option<u32>
    ensures { result ≡ slack_of spread.now.even }
{
    match &spread.even {
        Some(even) => Some(even.slack),
        None => None,
    }
}

/// The first fault of a spread. Where there is none its plan is the best within its caps, and they cost no coverage; and where it
/// tells how even it is, it is so even.
pub fn check_spread(
    alloc: Global,
    instance: &Instance,
    spread: &Spread,
) -> Result<Option<SpreadFault>, AllocError>
    ensures fault { IfOk result (λ f. f ≡ spread_fault instance.now spread.now) }
    ensures best { IfOk result (λ f. f ≡ None → IsBestWithin spread.now.caps instance.now spread.now.plan.pairs) }
    ensures even { IfOk result (λ f. f ≡ None → IfSome spread.now.even (λ even. IsEvenWithin instance.now even.jobs even.slack (witness_of spread.now even) spread.now.plan.pairs)) }
    ensures evenest { IfOk result (λ f. f ≡ None → IfSome spread.now.even (λ even. even.slack ≡ 0 → IsEvenest instance.now (owner_of even.jobs) (owners_of instance.now even.jobs) spread.now.plan.pairs)) }
{
    instance.is_problem();
    let fault = first_fault(alloc, instance, spread)?;
    Ok(fault)
}

/// The first fault of a spread.
#[tactic(auto, unfolding(crate::specs::Judged::spread_fault))]
fn first_fault(
    alloc: Global,
    instance: &Instance,
    spread: &Spread,
) -> Result<Option<SpreadFault>, AllocError>
    ensures { IfOk result (λ f. f ≡ spread_fault instance.now spread.now) }
{
    instance.is_problem();
    if let Some(fault) = find_not_best(alloc, instance, spread)? {
        return Ok(Some(fault));
    }
    check_even(alloc, instance, spread)
}

/// The first fault of what a spread tells of how even it is, if it tells that: the last part of `check_spread`, for a plan that is
/// known to be feasible.
pub fn check_even(
    alloc: Global,
    instance: &Instance,
    spread: &Spread,
) -> Result<Option<SpreadFault>, AllocError>
    requires { IsFeasible instance.now spread.now.plan.pairs }
    ensures { IfOk result (λ f. f ≡ told_fault instance.now spread.now spread.now.even) }
{
    let Some(even) = &spread.even else {
        return Ok(None);
    };
    match find_uneven(alloc, instance, spread, even)? {
        Some(fault) => Ok(Some(SpreadFault::Even(fault))),
        None => Ok(None),
    }
}

/// The first fault of its caps, of its plan where nothing was before, of its plan within the caps.
#[tactic(auto, unfolding(crate::specs::Judged::best_fault))]
fn find_not_best(
    alloc: Global,
    instance: &Instance,
    spread: &Spread,
) -> Result<Option<SpreadFault>, AllocError>
    ensures { IfOk result (λ f. f ≡ best_fault instance.now spread.now) }
{
    instance.is_problem();
    match find_cap_fault(instance, spread.caps.as_slice()) {
        Some(fault) => return Ok(Some(fault)),
        None => {}
    }
    if let Some(fault) = find_not_free(alloc, instance, spread, &spread.plan.pairs)? {
        return Ok(Some(SpreadFault::Free(fault)));
    }
    let capped = instance.capped(alloc, spread.caps.as_slice())?;
    if let Some(fault) = fault_in(alloc, &capped, &spread.plan)? {
        return Ok(Some(SpreadFault::Within(fault)));
    }
    Ok(None)
}

/// The least bin whose cap is too high.
#[tactic(auto, unfolding(crate::specs::Judged::cap_fault))]
fn find_cap_fault(instance: &Instance, caps: &[u32]) -> Option<SpreadFault>
    ensures { result ≡ cap_fault instance.now caps.now }
{
    if caps.len() != instance.bins() {
        return Some(SpreadFault::WrongCaps);
    }
    for bin in 0..instance.bins() {
        if caps[bin] as usize > instance.capacity(bin) {
            return Some(SpreadFault::CapTooHigh(bin as u32));
        }
    }
    None
}

/// The first fault of these pairs with the free prices, where nothing was before and there are no caps.
fn find_not_free(
    alloc: Global,
    instance: &Instance,
    spread: &Spread,
    pairs: &List<(u32, u32)>,
) -> Result<Option<Fault>, AllocError>
    ensures { IfOk result (λ f. f ≡ fault_of (bare instance.now) pairs.now spread.now.free_item_prices spread.now.free_bin_prices) }
{
    let free = Plan {
        pairs: pairs.copy()?,
        item_prices: spread.free_item_prices.copy()?,
        bin_prices: spread.free_bin_prices.copy()?,
    };
    let bare = instance.bare(alloc)?;
    fault_in(alloc, &bare, &free)
}

/// The first fault of a plan.
fn fault_in(alloc: Global, instance: &Instance, plan: &Plan) -> Result<Option<Fault>, AllocError>
    ensures { IfOk result (λ f. f ≡ fault_of instance.now plan.now.pairs plan.now.item_prices plan.now.bin_prices) }
{
    match check(alloc, instance, plan)? {
        Verdict::Refused(fault) => Ok(Some(fault)),
        Verdict::Best { .. } => Ok(None),
    }
}

/// The first fault of what tells how even the plan is.
#[tactic(auto, unfolding(crate::specs::EvenFaults::even_fault))]
fn find_uneven(
    alloc: Global,
    instance: &Instance,
    spread: &Spread,
    even: &Even,
) -> Result<Option<EvenFault>, AllocError>
    requires { IsFeasible instance.now spread.now.plan.pairs }
    ensures { IfOk result (λ f. f ≡ even_fault instance.now spread.now even.now) }
{
    instance.is_problem();
    if let Some(fault) = find_bad_shape(instance, even) {
        return Ok(Some(fault));
    }
    if let Some(fault) = find_bad_witness(alloc, instance, spread, even)? {
        return Ok(Some(fault));
    }
    let pairs = witness_of(spread, even);
    find_bad_levels(alloc, instance, &spread.caps, even, pairs.as_slice())
}

/// The pairs of the witness: those of the plan where there are no others.
fn witness_of<'a>(spread: &'a Spread, even: &'a Even) -> &'a List<(u32, u32)>
    ensures { result.now ≡ witness_of spread.now even.now }
{
    match &even.witness {
        Some(pairs) => pairs,
        None => &spread.plan.pairs,
    }
}

/// The first fault of a witness that has other pairs than the plan.
#[tactic(auto, unfolding(crate::specs::EvenFaults::witness_fault))]
fn find_bad_witness(
    alloc: Global,
    instance: &Instance,
    spread: &Spread,
    even: &Even,
) -> Result<Option<EvenFault>, AllocError>
    ensures { IfOk result (λ f. f ≡ witness_fault instance.now spread.now even.now) }
{
    let Some(pairs) = &even.witness else {
        return Ok(None);
    };
    if let Some(fault) = find_other_counts(
        instance,
        pairs.as_slice(),
        spread.plan.pairs.as_slice(),
    ) {
        return Ok(Some(fault));
    }
    match find_not_free(alloc, instance, spread, pairs)? {
        Some(fault) => Ok(Some(EvenFault::Witness(fault))),
        None => Ok(None),
    }
}

/// How many items the witness covers or leaves, where the plan does not cover or leave as many.
fn find_other_counts(
    instance: &Instance,
    witness: &[(u32, u32)],
    pairs: &[(u32, u32)],
) -> Option<EvenFault>
    ensures { result ≡ count_fault instance.now witness.now pairs.now }
{
    if witness.len() != pairs.len() {
        return Some(EvenFault::CoversOther(witness.len() as u64, pairs.len() as u64));
    }
    let left = count_left(instance, witness);
    let most = count_left(instance, pairs);
    if left == most {
        None
    } else {
        Some(EvenFault::LeavesOther(left, most))
    }
}

/// How many items are left at draining bins.
fn count_left(instance: &Instance, pairs: &[(u32, u32)]) -> u64
    ensures { result ≡ left instance.now pairs.now }
{
    pairs
        .iter()
        .filter(|pair| instance.drains(pair.1 as usize))
        .count() as u64
}

/// How many pairs of the preceding assignment are lost.
fn count_moved(instance: &Instance, pairs: &[(u32, u32)]) -> u64
    ensures { result ≡ moved instance.now pairs.now }
{
    (instance.before_count() as u64).saturating_sub(count_kept(instance, pairs))
}

/// How many pairs of the preceding assignment are kept.
fn count_kept(instance: &Instance, pairs: &[(u32, u32)]) -> u64
    ensures { result ≡ kept instance.now pairs.now }
{
    pairs
        .iter()
        .filter(|pair| instance.before(pair.0 as usize) == Some(pair.1))
        .count() as u64
}
