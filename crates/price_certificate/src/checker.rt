//! The checker: whether prices prove a plan the best.
ghost use Rattle.std.specs.Prelude.{◌≡◌, ◌↔◌, IfOk, true};
ghost use Rattle.price_certificate.specs.Assignment.{IsOptimal, moved};
ghost use Rattle.price_certificate.specs.Certificate.{IsCertified};
ghost use Rattle.price_certificate.specs.Faults.{fault_of, verdict_of, is_best};

use crate::faults::{
    count_kept, count_left, find_bad_number, find_different_sums, find_item_twice,
    find_out_of_reach, find_over_limit, find_price_too_low, find_wrong_lengths,
};
use crate::instance::Instance;
use crate::plan::Plan;
use crate::verdict::{Fault, Verdict};
use std::alloc::{AllocError, Global};

/// Whether the plan is certified by its prices, and so the best, or its first fault: through the whole plan one kind
/// of fault after the other, in the order in which `Fault` has them. It is linear in the allowed pairs.
pub fn check(alloc: Global, instance: &Instance, plan: &Plan) -> Result<Verdict, AllocError>
    ensures verdict { IfOk result (λ v. v ≡ verdict_of instance.now plan.now.pairs plan.now.item_prices plan.now.bin_prices) }
    ensures certified { IfOk result (λ v. (is_best v ≡ true) ↔ IsCertified instance.now plan.now.pairs plan.now.item_prices plan.now.bin_prices) }
    ensures optimal { IfOk result (λ v. is_best v ≡ true → IsOptimal instance.now plan.now.pairs) }
{
    instance.is_problem();
    let pairs = plan.pairs.as_slice();
    let fault = first_fault(
        alloc,
        instance,
        pairs,
        plan.item_prices.as_slice(),
        plan.bin_prices.as_slice(),
    )?;
    match fault {
        Some(fault) => Ok(Verdict::Refused(fault)),
        None => Ok(Verdict::Best {
            covered: pairs.len() as u64,
            left: count_left(instance, pairs),
            moved: moves(instance, pairs),
        }),
    }
}

/// The first fault of a plan.
fn first_fault(
    alloc: Global,
    instance: &Instance,
    pairs: &[(u32, u32)],
    item_prices: &[u32],
    bin_prices: &[u32],
) -> Result<Option<Fault>, AllocError>
    ensures { IfOk result (λ f. f ≡ fault_of instance.now pairs.now item_prices.now bin_prices.now) }
{
    instance.is_problem();
    if let Some(fault) = find_wrong_lengths(instance, item_prices, bin_prices) {
        return Ok(Some(fault));
    }
    if let Some(fault) = find_bad_number(instance, pairs) {
        return Ok(Some(fault));
    }
    if let Some(fault) = find_item_twice(alloc, instance.items(), pairs)? {
        return Ok(Some(fault));
    }
    if let Some(fault) = find_out_of_reach(instance, pairs) {
        return Ok(Some(fault));
    }
    if let Some(fault) = find_over_limit(alloc, instance, pairs)? {
        return Ok(Some(fault));
    }
    if let Some(fault) = find_price_too_low(alloc, instance, item_prices, bin_prices)? {
        return Ok(Some(fault));
    }
    Ok(find_different_sums(instance, pairs, item_prices, bin_prices))
}

/// How many pairs of the preceding assignment are lost.
fn moves(instance: &Instance, pairs: &[(u32, u32)]) -> u64
    ensures { result ≡ moved instance.now pairs.now }
{
    (instance.before_count() as u64).saturating_sub(count_kept(instance, pairs))
}
