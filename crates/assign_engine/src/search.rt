//! The search for the nearest end of a way from an item.
ghost use Rattle.std.specs.Prelude.{◌≡◌, ◌+◌, ◌^◌, ◌<◌, ◌≤◌, List, [], ℕ, length, slice_index, OnOk, IfSome, IfNone, Some};
ghost use Rattle.price_certificate.specs.Problem.{IsAllowed, items_of, bins_of, capacity_of, row_of, weight_of};
ghost use Rattle.assign_engine.specs.Seats.{seat, used, IsSound};
ghost use Rattle.assign_engine.specs.SearchTables.{HasBins};
ghost use Rattle.assign_engine.specs.Changed.{IsNoted, IsRelaxed, IsExpanded};
ghost use Rattle.assign_engine.specs.Pending.{cheaper_of};
ghost use Rattle.assign_engine.specs.Searched.{IsSearched, IsListed, HasParents};
ghost use Rattle.assign_engine.specs.Searching.{EndsAt, IsNearerEnd};

use crate::ends::End;
use crate::matching::Matching;
use crate::search_tables::SearchTables;
use price_certificate::Instance;
use std::alloc::AllocError;

/// Notes a bin whose distance was lowered: as an end if it has room, else on the frontier. Only what is nearer than the
/// best end so far counts.
fn note(
    instance: &Instance,
    matching: &Matching,
    bin: usize,
    tables: &mut SearchTables,
) -> Result<(), AllocError>
    requires { bin < length tables.old.distances }
    ensures { OnOk result (IsNoted instance.now matching.now.seating.seats bin tables.old tables.new) }
{
    let distance = tables.distance(bin);
    if distance >= tables.cost() {
        return Ok(());
    }
    if matching.seating.count(bin) < instance.capacity(bin) {
        tables.end_at(distance, End::Room(bin));
        return Ok(());
    }
    tables.wait(distance, bin)
}

/// Relaxes the pairs of an item: lowers the distances of its bins where the way over it, which is of length base so far, is
/// shorter.
fn relax(
    instance: &Instance,
    matching: &Matching,
    item: usize,
    base: u64,
    tables: &mut SearchTables,
) -> Result<(), AllocError>
    requires base { base < 2 ^ 33 }
    requires prices { length matching.now.bin_prices.items ≡ bins_of instance.now }
    requires sizes { HasBins (bins_of instance.now) tables.old }
    requires priced { (b : ℕ) → IsAllowed instance.now item b → weight_of instance.now item b ≤ base + slice_index matching.now.bin_prices.items b }
    ensures { OnOk result (IsRelaxed instance.now matching.now.seating.seats matching.now.bin_prices.items item base (length (row_of instance.now item)) tables.old tables.new) }
{
    instance.is_problem();
    tables.look(instance.row(item).len());
    for bin in instance.row(item) {
        let bin = *bin as usize;
        let distance = base + u64::from(matching.bin_prices[bin])
            - u64::from(instance.weight(item, bin));
        if distance < tables.distance(bin) {
            tables.lower(bin, distance, item);
            note(instance, matching, bin, tables)?;
        }
    }
    Ok(())
}

/// Relaxes the pairs of the items of a bin, until there is an end that is no farther than the bin.
fn expand(
    instance: &Instance,
    matching: &Matching,
    bin: usize,
    tables: &mut SearchTables,
) -> Result<(), AllocError>
    requires bin { bin < bins_of instance.now }
    requires base { slice_index tables.old.distances bin < 2 ^ 32 }
    requires items { length matching.now.item_prices.items ≡ items_of instance.now }
    requires prices { length matching.now.bin_prices.items ≡ bins_of instance.now }
    requires seated { (t b : ℕ) → seat matching.now.seating.seats t ≡ Some b → t < items_of instance.now }
    requires sizes { HasBins (bins_of instance.now) tables.old }
    requires priced { (t b : ℕ) → IsAllowed instance.now t b → weight_of instance.now t b ≤ slice_index matching.now.item_prices.items t + slice_index matching.now.bin_prices.items b }
    ensures { OnOk result (IsExpanded instance.now matching.now.seating.seats matching.now.item_prices.items matching.now.bin_prices.items bin (slice_index tables.old.distances bin) tables.old tables.new) }
{
    let base = tables.distance(bin);
    for item in matching.seating.members(bin) {
        if tables.cost() <= base {
            return Ok(());
        }
        let item_base = base + u64::from(matching.item_prices[*item]);
        relax(instance, matching, *item, item_base, tables)?;
    }
    Ok(())
}

/// The cheaper of the two.
fn cheaper(best: Option<(usize, u32)>, item: usize, price: u32) -> Option<(usize, u32)>
    ensures { result ≡ cheaper_of best item price }
{
    match best {
        Some((_, least)) if least <= price => best,
        _ => Some((item, price)),
    }
}

/// The item of the bin that has the least price, with this price.
fn cheapest(matching: &Matching, bin: usize) -> Option<(usize, u32)>
    requires { (t : ℕ) → seat matching.now.seating.seats t ≡ Some bin → t < length matching.now.item_prices.items }
    ensures seated { IfSome result (λ r. seat matching.now.seating.seats r.0 ≡ Some bin) }
    ensures price { IfSome result (λ r. r.1 ≡ slice_index matching.now.item_prices.items r.0) }
    ensures least { IfSome result (λ r. (t : ℕ) → seat matching.now.seating.seats t ≡ Some bin → r.1 ≤ slice_index matching.now.item_prices.items t) }
    ensures none { IfNone result ((t : ℕ) → seat matching.now.seating.seats t ≡ Some bin → ⊥) }
{
    let mut best = None;
    for item in matching.seating.members(bin) {
        best = cheaper(best, *item, matching.item_prices[*item]);
    }
    best
}

/// Notes as an end that the cheapest item of a bin is uncovered, if that costs less than the best end so far.
fn uncover(matching: &Matching, bin: usize, tables: &mut SearchTables)
    requires bin { bin < length tables.old.distances }
    requires base { slice_index tables.old.distances bin < 2 ^ 32 }
    requires items { (t : ℕ) → seat matching.now.seating.seats t ≡ Some bin → t < length matching.now.item_prices.items }
    ensures { IsNearerEnd matching.now.seating.seats matching.now.item_prices.items bin tables.old tables.new }
{
    if let Some((item, price)) = cheapest(matching, bin) {
        let cost = tables.distance(bin) + u64::from(price);
        if cost < tables.cost() {
            tables.end_at(cost, End::Uncover(item, bin));
        }
    }
}

/// Finds the nearest end of a way from the new item.
pub fn search(
    instance: &Instance,
    matching: &Matching,
    item: usize,
    tables: &mut SearchTables,
) -> Result<(), AllocError>
    requires item { item < items_of instance.now }
    requires sound { IsSound instance.now matching.now.seating.seats matching.now.item_prices.items matching.now.bin_prices.items }
    requires sizes { HasBins (bins_of instance.now) tables.old }
    ensures searched { OnOk result (IsSearched instance.now matching.now.seating.seats matching.now.item_prices.items matching.now.bin_prices.items item tables.new.distances tables.new.cost) }
    ensures parents { OnOk result (HasParents instance.now matching.now.seating.seats matching.now.item_prices.items matching.now.bin_prices.items item tables.new.distances tables.new.vias tables.new.ranks) }
    ensures sizes { OnOk result (HasBins (bins_of instance.now) tables.new) }
    ensures ends { OnOk result (EndsAt instance.now matching.now.seating.seats matching.now.item_prices.items item tables.new.distances tables.new.cost tables.new.end) }
    ensures cost { OnOk result (tables.new.cost < 2 ^ 32) }
    ensures settled { OnOk result (tables.new.settled ≤ bins_of instance.now) }
    ensures listed { OnOk result (IsListed instance.now tables.new.distances tables.new.cost tables.new.settled_bins) }
{
    instance.is_problem();
    let price = u64::from(matching.item_prices[item]);
    tables.begin(price);
    relax(instance, matching, item, price, tables)?;
    while let Some(bin) = tables.nearest() {
        tables.settle(bin)?;
        tables.look(matching.seating.count(bin));
        uncover(matching, bin, tables);
        expand(instance, matching, bin, tables)?;
    }
    Ok(())
}
