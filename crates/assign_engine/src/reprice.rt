//! The price step after a search.
ghost use Rattle.std.specs.Prelude.{◌≡◌, ◌+◌, ◌*◌, ◌^◌, ◌<◌, ◌≤◌, ℕ, Some, None, length, slice_index, slice_set};
ghost use Rattle.price_certificate.specs.Problem.{items_of, bins_of};
ghost use Rattle.assign_engine.specs.Usable.{one_if};
ghost use Rattle.assign_engine.specs.Seats.{sits, seat, IsSound};
ghost use Rattle.assign_engine.specs.Roll.{times_in};
ghost use Rattle.assign_engine.specs.SearchTables.{HasBins};
ghost use Rattle.assign_engine.specs.Searched.{IsSearched, IsListed, IsRepriced};

use crate::matching::Matching;
use crate::search_tables::SearchTables;
use price_certificate::Instance;

/// Lowers the price of each item of a list, once for each time that it stands there.
fn lower_items(item_prices: &mut Vec<u32>, items: &[usize], by: u32)
    requires items { (t : ℕ) → 0 < times_in items.now t → t < length item_prices.old.items }
    requires falls { (t : ℕ) → times_in items.now t * by ≤ slice_index item_prices.old.items t }
    ensures count { length item_prices.new.items ≡ length item_prices.old.items }
    ensures fallen { (t : ℕ) → slice_index item_prices.new.items t + times_in items.now t * by ≡ slice_index item_prices.old.items t }
{
    for item in items {
        item_prices[*item] -= by;
    }
}

/// Raises the price of a bin, and lowers those of its items as much.
fn reprice_bin(matching: &mut Matching, bin: usize, by: u32)
    requires bin { bin < length matching.old.bin_prices.items }
    requires items { (t : ℕ) → seat matching.old.seating.seats t ≡ Some bin → t < length matching.old.item_prices.items }
    requires rise { slice_index matching.old.bin_prices.items bin + by < 2 ^ 32 }
    requires falls { (t : ℕ) → seat matching.old.seating.seats t ≡ Some bin → by ≤ slice_index matching.old.item_prices.items t }
    ensures seating { matching.new.seating ≡ matching.old.seating }
    ensures bins { matching.new.bin_prices.items ≡ slice_set matching.old.bin_prices.items bin (slice_index matching.old.bin_prices.items bin + by) }
    ensures count { length matching.new.item_prices.items ≡ length matching.old.item_prices.items }
    ensures items { (t : ℕ) → slice_index matching.new.item_prices.items t + one_if (sits bin (seat matching.old.seating.seats t)) * by ≡ slice_index matching.old.item_prices.items t }
{
    matching.bin_prices[bin] += by;
    lower_items(&mut matching.item_prices, matching.seating.members(bin), by);
}

/// The price step: what is nearer than the cost of the search gets the difference, bins as a rise and items as a fall.
pub fn reprice(instance: &Instance, matching: &mut Matching, item: usize, tables: &SearchTables)
    requires item { item < items_of instance.now }
    requires sound { IsSound instance.now matching.old.seating.seats matching.old.item_prices.items matching.old.bin_prices.items }
    requires new { seat matching.old.seating.seats item ≡ None }
    requires searched { IsSearched instance.now matching.old.seating.seats matching.old.item_prices.items matching.old.bin_prices.items item tables.now.distances tables.now.cost }
    requires sizes { HasBins (bins_of instance.now) tables.now }
    requires listed { IsListed instance.now tables.now.distances tables.now.cost tables.now.settled_bins }
    requires cost { tables.now.cost < 2 ^ 32 }
    ensures seating { matching.new.seating ≡ matching.old.seating }
    ensures repriced { IsRepriced instance.now matching.old.seating.seats matching.old.item_prices.items matching.old.bin_prices.items item tables.now.distances tables.now.cost matching.new.item_prices.items matching.new.bin_prices.items }
{
    instance.is_problem();
    let cost = tables.cost();
    for bin in tables.settled_bins() {
        let bin = *bin;
        let distance = tables.distance(bin);
        if distance < cost {
            reprice_bin(matching, bin, (cost - distance) as u32);
        }
    }
    matching.item_prices[item] -= cost as u32;
}
