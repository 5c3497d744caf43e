//! What the engine starts from.
ghost use Rattle.std.specs.Prelude.{◌≡◌, ◌==◌, ◌<◌, ◌≤◌, List, ℕ, IfSome, IfNone, IfOk, IsTrue, Contains, Some, false, replicate, count_by, is_none};
ghost use Rattle.std.specs.List.{list_any};
ghost use Rattle.price_certificate.specs.Problem.{IsAllowed, items_of, bins_of, capacity_of, drains};
ghost use Rattle.assign_engine.specs.Usable.{IsHome, home_of, may_stay, movers_below};
ghost use Rattle.assign_engine.specs.Seats.{used, IsSound, IsStart};

use crate::matching::Matching;
use crate::seating::Seating;
use price_certificate::Instance;
use std::alloc::{AllocError, Global};

/// Whether the bin is in the row.
fn has_bin(row: &[u32], bin: u32) -> bool
    ensures test { result ≡ list_any (λ b. b == bin) row.now }
    ensures allowed { IsTrue result → Contains row.now bin }
{
    row.iter().any(|b| *b == bin)
}

/// Whether an item may use a bin that does not drain.
fn may_stay(instance: &Instance, item: usize, bin: u32) -> bool
    ensures exact { result ≡ may_stay instance.now item bin }
    ensures allowed { IsTrue result → IsAllowed instance.now item bin }
    ensures steady { IsTrue result → drains instance.now bin ≡ false }
{
    has_bin(instance.row(item), bin) && !instance.drains(bin as usize)
}

/// The bin where an item was, if the item may stay there.
#[tactic(auto, unfolding(crate::specs::Usable::home_of))]
fn home(instance: &Instance, item: usize) -> Option<usize>
    ensures exact { result ≡ home_of instance.now item }
    ensures home { IfSome result (λ b. IsHome instance.now item b) }
{
    match instance.before(item) {
        Some(bin) if may_stay(instance, item, bin) => Some(bin as usize),
        _ => None,
    }
}

/// The bin where an item was, if the item may stay there and it has room.
fn home_with_room(instance: &Instance, seating: &Seating, item: usize) -> Option<usize>
    ensures home { IfSome result (λ bin. IsHome instance.now item bin) }
    ensures exact { IfSome result (λ bin. Some bin ≡ home_of instance.now item) }
    ensures room { IfSome result (λ bin. used seating.now.seats bin < capacity_of instance.now bin) }
    ensures none { IfNone result ((bin : ℕ) → home_of instance.now item ≡ Some bin → capacity_of instance.now bin ≤ used seating.now.seats bin) }
{
    match home(instance, item) {
        Some(bin) if seating.count(bin) < instance.capacity(bin) => Some(bin),
        _ => None,
    }
}

/// The items with a usable pair are where they were, and the others are in no bin.
fn kept_seating(alloc: Global, instance: &Instance) -> Result<Seating, AllocError>
    ensures start { IfOk result (λ s. IsStart instance.now (items_of instance.now) s.seats) }
    ensures bins { IfOk result (λ s. s.bins ≡ bins_of instance.now) }
{
    instance.is_problem();
    let mut seating = Seating::new(alloc, instance.items(), instance.bins())?;
    for item in 0..instance.items() {
        if let Some(bin) = home_with_room(instance, &seating, item) {
            seating.put(item, bin)?;
        }
    }
    Ok(seating)
}

fn prices_at(alloc: Global, price: u32, count: usize) -> Result<Vec<u32>, AllocError>
    ensures { IfOk result (λ v. v.items ≡ replicate count price) }
{
    vec![in alloc; price; count]
}

/// What the engine starts from: the usable pairs of the preceding assignment, with the top weight as the price of each item
/// and no price for bins.
pub fn start(alloc: Global, instance: &Instance) -> Result<Matching, AllocError>
    ensures sound { IfOk result (λ m. IsSound instance.now m.seating.seats m.item_prices.items m.bin_prices.items) }
    ensures bins { IfOk result (λ m. m.seating.bins ≡ bins_of instance.now) }
    ensures movers { IfOk result (λ m. count_by is_none m.seating.seats ≡ movers_below instance.now (items_of instance.now)) }
{
    instance.is_problem();
    let seating = kept_seating(alloc, instance)?;
    let item_prices = prices_at(alloc, instance.top_weight(), instance.items())?;
    let bin_prices = prices_at(alloc, 0, instance.bins())?;
    Ok(Matching {
        seating,
        item_prices,
        bin_prices,
    })
}
