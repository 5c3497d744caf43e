//! The engine's public call: it starts, inserts who waits, and reads the plan off.
ghost use Rattle.std.specs.Prelude.{◌≡◌, ◌*◌, ◌<◌, ◌≤◌, Some, ℕ, length, map, OnOk, IfOk, count_by, is_none};
ghost use Rattle.std.specs.List.Sorted.{IsStrictlyIncreasing};
ghost use Rattle.price_certificate.specs.Problem.{items_of, bins_of};
ghost use Rattle.price_certificate.specs.Assignment.{IsOptimal};
ghost use Rattle.price_certificate.specs.Certificate.{IsCertified};
ghost use Rattle.assign_engine.specs.Usable.{movers_below};
ghost use Rattle.assign_engine.specs.Seats.{seat, pairs_of, IsSound, IsWaiting};
ghost use Rattle.assign_engine.specs.SearchTables.{HasBins};

use crate::insert::insert;
use crate::matching::Matching;
use crate::search_tables::SearchTables;
use crate::seating::Seating;
use crate::start::start;
use crate::walks::{Walks, is_waiting, walk_if_due};
use lists::List;
use price_certificate::{Instance, MOST_BINS, Plan};
use std::alloc::{AllocError, Global};

/// How much was searched.
#[derive(Clone, Copy, PartialEq, Eq)]
pub struct Work {
    /// How many searches there were, one from each item that was not in place at the start.
    pub searches: u64,
    /// How many bins were settled, in all searches.
    pub settled: u64,
}

/// Inserts each item that has a price and is in no bin.
fn insert_all(
    alloc: Global,
    instance: &Instance,
    matching: &mut Matching,
    tables: &mut SearchTables,
    walks: &mut Walks,
) -> Result<Work, AllocError>
    requires sound { IsSound instance.now matching.old.seating.seats matching.old.item_prices.items matching.old.bin_prices.items }
    requires bins { matching.old.seating.bins ≡ bins_of instance.now }
    requires sizes { HasBins (bins_of instance.now) tables.old }
    requires arcs { length walks.old.arcs.items ≡ items_of instance.now }
    requires turns { length walks.old.turns.items ≡ bins_of instance.now }
    requires marks { HasBins (bins_of instance.now) walks.old.tables }
    ensures sound { OnOk result (IsSound instance.now matching.new.seating.seats matching.new.item_prices.items matching.new.bin_prices.items) }
    ensures none { OnOk result ((t : ℕ) → ¬ IsWaiting matching.new.seating.seats matching.new.item_prices.items t) }
    ensures searches { IfOk result (λ w. w.searches ≤ count_by is_none matching.old.seating.seats) }
    ensures settled { IfOk result (λ w. w.settled ≤ w.searches * bins_of instance.now) }
{
    instance.is_problem();
    let mut searches = 0;
    let mut settled = 0;
    let mut due = 0;
    for item in 0..instance.items() {
        due = walk_if_due(alloc, instance, matching, walks, item, due)?;
        if is_waiting(matching, item) {
            insert(instance, matching, item, tables)?;
            searches += 1;
            let more = tables.settled() as u64;
            settled += more;
            due = due.saturating_sub(tables.looked()).saturating_sub(1);
        }
    }
    Ok(Work { searches, settled })
}

/// The pairs in order of items.
fn pairs(
    alloc: Global,
    instance: &Instance,
    seating: &Seating,
) -> Result<Vec<(u32, u32)>, AllocError>
    requires items { length seating.now.seats ≡ items_of instance.now }
    requires bins { (t b : ℕ) → seat seating.now.seats t ≡ Some b → b < MOST_BINS }
    ensures { IfOk result (λ v. v.items ≡ pairs_of seating.now.seats) }
{
    let mut pairs = Vec::new(alloc);
    for item in 0..instance.items() {
        if let Some(bin) = seating.bin_of(item) {
            pairs.push((item as u32, bin as u32))?;
        }
    }
    Ok(pairs)
}

/// An optimal assignment, with its pairs in order of items and the prices that certify it, and how much was searched for
/// it.
pub fn solve(alloc: Global, instance: &Instance) -> Result<(Plan, Work), AllocError>
    ensures certified { IfOk result (λ r. IsCertified instance.now r.0.pairs r.0.item_prices r.0.bin_prices) }
    ensures ordered { IfOk result (λ r. IsStrictlyIncreasing (map (λ (q : ℕ × ℕ). q.0) r.0.pairs)) }
    ensures optimal { IfOk result (λ r. IsOptimal instance.now r.0.pairs) }
    ensures searches { IfOk result (λ r. r.1.searches ≤ movers_below instance.now (items_of instance.now)) }
    ensures settled { IfOk result (λ r. r.1.settled ≤ r.1.searches * bins_of instance.now) }
{
    instance.is_problem();
    let mut matching = start(alloc, instance)?;
    let mut tables = SearchTables::new(alloc, instance.bins())?;
    let mut walks = Walks::new(alloc, instance)?;
    let work = insert_all(alloc, instance, &mut matching, &mut tables, &mut walks)?;
    let pairs = pairs(alloc, instance, &matching.seating)?;
    let Matching {
        seating: _,
        item_prices,
        bin_prices,
    } = matching;
    Ok((
        Plan {
            pairs: List::from_vec(pairs),
            item_prices: List::from_vec(item_prices),
            bin_prices: List::from_vec(bin_prices),
        },
        work,
    ))
}
