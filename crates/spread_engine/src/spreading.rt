//! A plan within caps that cost no coverage, and what is to show it.
ghost use Rattle.std.specs.Prelude.{◌≡◌, ◌≤◌, ℕ, None, Some, IfOk, IfSome, length, map};
ghost use Rattle.std.specs.List.Sorted.{IsStrictlyIncreasing};
ghost use Rattle.price_certificate.specs.Assignment.{IsFeasible, IsOptimal};
ghost use Rattle.price_certificate.specs.Certificate.{IsCertified};
ghost use Rattle.price_certificate.specs.Derived.{bare, capped};
ghost use Rattle.spread_certificate.specs.Judged.{best_fault, spread_fault};
ghost use Rattle.spread_certificate.specs.Within.{AreCaps, AreFree, IsBestWithin};
ghost use Rattle.spread_engine.specs.Telling.{IsTold, telling};
ghost use Rattle.spread_engine.specs.Witness.{AreNear, MovesFew};

use crate::bounded::shifts_within;
use crate::evenest::evenest_from;
use crate::free::free_plan;
use crate::groups::{Groups, JobEvening};
use crate::levels::even_if_shown;
use crate::witness::Witness;
use assign_engine::solve;
use lists::List;
use price_certificate::{Instance, Plan, Verdict, check};
use spread_certificate::{Even, Spread, check_even};
use std::alloc::{AllocError, Global};

/// Finds caps that even out what collectors have, and the best plan within them. It covers as many items as any feasible
/// assignment, and of those that do leaves the fewest. A collector has `jobs` bins in a row, a bin for each job. What it has of the jobs that
/// are evened out together may be `slack` percent more than where the loads are the most even, rounded up. How each job is evened out
/// is told by its place; a job of which nothing is told is evened out together with others. At most so many items move for that.
pub fn spread_plan(
    alloc: Global,
    instance: &Instance,
    jobs: u32,
    slack: u32,
    by_job: &[JobEvening],
    most_moves: Option<u32>,
) -> Result<Spread, AllocError>
    ensures caps { IfOk result (λ s. AreCaps instance.now s.caps) }
    ensures best { IfOk result (λ s. IsBestWithin s.caps instance.now s.plan.pairs) }
    ensures ordered { IfOk result (λ s. IsStrictlyIncreasing (map (λ (q : ℕ × ℕ). q.0) s.plan.pairs)) }
    ensures within { IfOk result (λ s. IsCertified (capped s.caps instance.now) s.plan.pairs s.plan.item_prices s.plan.bin_prices) }
    ensures free { IfOk result (λ s. IsCertified (bare instance.now) s.plan.pairs s.free_item_prices s.free_bin_prices) }
    ensures judged { IfOk result (λ s. spread_fault instance.now s ≡ None) }
    ensures moves { IfOk result (λ s. IfSome most_moves (λ most. MovesFew instance.now s.plan.pairs most)) }
    ensures told { IfOk result (λ s. IfSome s.even (IsTold jobs slack)) }
{
    instance.is_problem();
    let (start, _work) = solve(alloc, instance)?;
    let groups = Groups::new(alloc, instance, jobs, slack, by_job)?;
    let evenest = evenest_from(alloc, instance, &groups, start.pairs.as_slice())?;
    let shifts = shifts_within(
        alloc,
        instance,
        &groups,
        start.pairs.as_slice(),
        evenest.loads.as_slice(),
    )?;
    let caps = caps_after(
        alloc,
        instance,
        start.pairs.as_slice(),
        few(shifts.as_slice(), most_moves),
    )?;
    let spread = spread_into(alloc, instance, caps, start)?;
    let pairs = spread.plan.pairs.as_slice();
    let even = even_if_shown(alloc, instance, jobs, slack, &groups, evenest, pairs)?;
    let shown = with_even(alloc, instance, spread, even)?;
    Ok(shown)
}

/// The first so many shifts.
fn few(shifts: &[(u32, u32)], most: Option<u32>) -> &[(u32, u32)]
    ensures { IfSome most (λ m. length result.now ≤ m) }
{
    match most {
        Some(most) if (most as usize) < shifts.len() => &shifts[..most as usize],
        _ => shifts,
    }
}

/// Caps into which some assignment fits that covers the most and leaves the fewest: a best one after these shifts of its items.
fn caps_after(
    alloc: Global,
    instance: &Instance,
    start: &[(u32, u32)],
    shifts: &[(u32, u32)],
) -> Result<Vec<u32>, AllocError>
    requires best { IsOptimal instance.now start.now }
    ensures caps { IfOk result (λ v. AreCaps instance.now v.items) }
    ensures free { IfOk result (λ v. AreFree instance.now v.items) }
    ensures near { IfOk result (λ v. AreNear instance.now start.now (length shifts.now) v.items) }
{
    instance.is_problem();
    let mut witness = Witness::new(alloc, instance, start)?;
    witness.shift_all(instance, shifts);
    let caps = witness.caps(alloc, instance)?;
    Ok(caps)
}

/// A plan within the caps: the one that there is already, where its prices certify it there, or else one that is searched for.
fn plan_within(alloc: Global, capped: &Instance, start: Plan) -> Result<Plan, AllocError>
    requires { IsStrictlyIncreasing (map (λ (q : ℕ × ℕ). q.0) start.pairs) }
    ensures certified { IfOk result (λ p. IsCertified capped.now p.pairs p.item_prices p.bin_prices) }
    ensures optimal { IfOk result (λ p. IsOptimal capped.now p.pairs) }
    ensures ordered { IfOk result (λ p. IsStrictlyIncreasing (map (λ (q : ℕ × ℕ). q.0) p.pairs)) }
{
    match check(alloc, capped, &start)? {
        Verdict::Best { .. } => Ok(start),
        Verdict::Refused(_) => {
            let (plan, _work) = solve(alloc, capped)?;
            Ok(plan)
        }
    }
}

/// The best plan within caps that cost nothing, with both its prices.
fn spread_into(
    alloc: Global,
    instance: &Instance,
    caps: Vec<u32>,
    start: Plan,
) -> Result<Spread, AllocError>
    requires ordered { IsStrictlyIncreasing (map (λ (q : ℕ × ℕ). q.0) start.pairs) }
    requires caps { AreCaps instance.now caps.items }
    requires free { AreFree instance.now caps.items }
    ensures caps { IfOk result (λ s. s.caps ≡ caps.items) }
    ensures best { IfOk result (λ s. IsBestWithin s.caps instance.now s.plan.pairs) }
    ensures ordered { IfOk result (λ s. IsStrictlyIncreasing (map (λ (q : ℕ × ℕ). q.0) s.plan.pairs)) }
    ensures within { IfOk result (λ s. IsCertified (capped s.caps instance.now) s.plan.pairs s.plan.item_prices s.plan.bin_prices) }
    ensures free { IfOk result (λ s. IsCertified (bare instance.now) s.plan.pairs s.free_item_prices s.free_bin_prices) }
{
    instance.is_problem();
    let capped = instance.capped(alloc, caps.as_slice())?;
    let plan = plan_within(alloc, &capped, start)?;
    let bare = instance.bare(alloc)?;
    let free = free_plan(alloc, &bare, plan.pairs.as_slice())?;
    let Plan {
        pairs: _,
        item_prices,
        bin_prices,
    } = free;
    Ok(Spread {
        caps: List::from_vec(caps),
        plan,
        free_item_prices: item_prices,
        free_bin_prices: bin_prices,
        even: None,
    })
}

/// The spread with what shows how even it is, if there is something and the judge finds no fault in it.
fn with_even(
    alloc: Global,
    instance: &Instance,
    spread: Spread,
    even: Option<Even>,
) -> Result<Spread, AllocError>
    requires best { best_fault instance.now spread ≡ None }
    requires feasible { IsFeasible instance.now spread.plan.pairs }
    ensures judged { IfOk result (λ s. spread_fault instance.now s ≡ None) }
    ensures told { IfOk result (λ s. IfSome s.even (λ e. even ≡ Some e)) }
    ensures caps { IfOk result (λ s. s.caps ≡ spread.caps) }
    ensures plan { IfOk result (λ s. s.plan ≡ spread.plan) }
    ensures free { IfOk result (λ s. (s.free_item_prices ≡ spread.free_item_prices) × (s.free_bin_prices ≡ spread.free_bin_prices)) }
{
    let shown = telling(spread, even);
    match check_even(alloc, instance, &shown)? {
        None => Ok(shown),
        Some(_) => Ok(telling(shown, None)),
    }
}

/// The spread with this in place of what it tells of how even it is.
fn telling(spread: Spread, even: Option<Even>) -> Spread
    ensures { result ≡ telling spread even }
{
    let Spread {
        caps,
        plan,
        free_item_prices,
        free_bin_prices,
        even: _,
    } = spread;
    Spread {
        caps,
        plan,
        free_item_prices,
        free_bin_prices,
        even,
    }
}
