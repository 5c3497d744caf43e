//! The insertion of one item, and the way back from an end to it.
ghost use Rattle.std.specs.Prelude.{◌≡◌, ◌<◌, ◌≤◌, ◌≢◌, ℕ, None, OnOk};
ghost use Rattle.price_certificate.specs.Problem.{items_of, bins_of};
ghost use Rattle.assign_engine.specs.Seats.{seat, IsSound, IsWaiting};
ghost use Rattle.assign_engine.specs.SearchTables.{HasBins};
ghost use Rattle.assign_engine.specs.Searched.{IsInserted};
ghost use Rattle.assign_engine.specs.Searching.{HasWay};

use crate::ends::End;
use crate::matching::Matching;
use crate::reprice::reprice;
use crate::search::search;
use crate::search_tables::SearchTables;
use price_certificate::Instance;
use std::alloc::AllocError;

/// Finds the nearest end from the new item, and does the price step.
fn improve(
    instance: &Instance,
    matching: &mut Matching,
    item: usize,
    tables: &mut SearchTables,
) -> Result<(), AllocError>
    requires item { item < items_of instance.now }
    requires sound { IsSound instance.now matching.old.seating.seats matching.old.item_prices.items matching.old.bin_prices.items }
    requires new { seat matching.old.seating.seats item ≡ None }
    requires sizes { HasBins (bins_of instance.now) tables.old }
    ensures seating { OnOk result (matching.new.seating ≡ matching.old.seating) }
    ensures sound { OnOk result (IsSound instance.now matching.old.seating.seats matching.new.item_prices.items matching.new.bin_prices.items) }
    ensures way { OnOk result (HasWay instance.now matching.old.seating.seats matching.new.item_prices.items matching.new.bin_prices.items item tables.new.distances tables.new.vias tables.new.ranks tables.new.cost tables.new.end) }
    ensures waiting { OnOk result ((t : ℕ) → t ≢ item → IsWaiting matching.old.seating.seats matching.new.item_prices.items t → IsWaiting matching.old.seating.seats matching.old.item_prices.items t) }
    ensures sizes { OnOk result (HasBins (bins_of instance.now) tables.new) }
    ensures settled { OnOk result (tables.new.settled ≤ bins_of instance.now) }
{
    instance.is_problem();
    search(instance, matching, item, tables)?;
    reprice(instance, matching, item, tables);
    Ok(())
}

/// Goes back from the end that was found to the new item: each item on the way moves on to the next bin.
pub fn follow(
    instance: &Instance,
    matching: &mut Matching,
    item: usize,
    tables: &SearchTables,
) -> Result<(), AllocError>
    requires sound { IsSound instance.now matching.old.seating.seats matching.old.item_prices.items matching.old.bin_prices.items }
    requires new { seat matching.old.seating.seats item ≡ None }
    requires bins { matching.old.seating.bins ≡ bins_of instance.now }
    requires sizes { HasBins (bins_of instance.now) tables.now }
    requires way { HasWay instance.now matching.old.seating.seats matching.old.item_prices.items matching.old.bin_prices.items item tables.now.distances tables.now.vias tables.now.ranks tables.now.cost tables.now.end }
    ensures inserted { OnOk result (IsInserted instance.now matching.old.seating.seats matching.old.item_prices.items item matching.new.seating.seats matching.new.item_prices.items matching.new.bin_prices.items) }
    ensures bins { OnOk result (matching.new.seating.bins ≡ bins_of instance.now) }
{
    instance.is_problem();
    let mut hole = match tables.end() {
        End::Leave => return Ok(()),
        End::Room(bin) => bin,
        End::Uncover(other, bin) => {
            matching.seating.take_out(other);
            bin
        }
    };
    'trail: loop {
        let via = tables.via(hole);
        let from = matching.seating.bin_of(via);
        matching.seating.put(via, hole)?;
        match from {
            Some(bin) => hole = bin,
            None => return Ok(()),
        }
    }
}

/// Inserts one item: along the way to the nearest end each item moves on to the next bin.
pub fn insert(
    instance: &Instance,
    matching: &mut Matching,
    item: usize,
    tables: &mut SearchTables,
) -> Result<(), AllocError>
    requires item { item < items_of instance.now }
    requires sound { IsSound instance.now matching.old.seating.seats matching.old.item_prices.items matching.old.bin_prices.items }
    requires new { seat matching.old.seating.seats item ≡ None }
    requires bins { matching.old.seating.bins ≡ bins_of instance.now }
    requires sizes { HasBins (bins_of instance.now) tables.old }
    ensures inserted { OnOk result (IsInserted instance.now matching.old.seating.seats matching.old.item_prices.items item matching.new.seating.seats matching.new.item_prices.items matching.new.bin_prices.items) }
    ensures bins { OnOk result (matching.new.seating.bins ≡ bins_of instance.now) }
    ensures sizes { OnOk result (HasBins (bins_of instance.now) tables.new) }
    ensures settled { OnOk result (tables.new.settled ≤ bins_of instance.now) }
{
    improve(instance, matching, item, tables)?;
    follow(instance, matching, item, tables)
}
