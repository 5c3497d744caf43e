//! Walks over exactly priced pairs, in rounds, which seat many items with no search.
ghost use Rattle.std.specs.Prelude.{◌≡◌, ◌+◌, ◌<◌, ◌≤◌, ◌⊎◌, ℕ, None, Some, IsTrue, IfSome, IfNone, IfOk, OnOk, Contains, length, slice_index};
ghost use Rattle.price_certificate.specs.Problem.{IsAllowed, items_of, bins_of, weight_of};
ghost use Rattle.assign_engine.specs.Seats.{seat, IsSound, IsWaiting};
ghost use Rattle.assign_engine.specs.SearchTables.{HasBins};
ghost use Rattle.assign_engine.specs.Searching.{HasWay};
ghost use Rattle.assign_engine.specs.Exact.{IsExact, IsForward, IsLink, HasTables, IsEntered, IsWalkEnd, IsBetter};

use crate::ends::End;
use crate::insert::follow;
use crate::matching::Matching;
use crate::search_tables::SearchTables;
use price_certificate::Instance;
use std::alloc::{AllocError, Global};

/// What walks know so far, in tables that serve one round of walks after another. The distance of a bin is the mark of
/// the last walk that reached it, marks falling from walk to walk, and its rank is how many exact pairs away it is.
#[derive(Drop)]
pub struct Walks {
    pub tables: SearchTables,
    pub arcs: Vec<usize>,
    pub turns: Vec<usize>,
    pub stack: Vec<usize>,
}

/// The price that stands at this place, 0 past the last one.
fn price_at(prices: &[u32], place: usize) -> u32
    ensures { result ≡ slice_index prices.now place }
{
    match prices.get(place) {
        Some(price) => *price,
        None => 0,
    }
}

/// Whether the pair is priced at its weight.
fn is_exact(instance: &Instance, matching: &Matching, item: usize, bin: usize) -> bool
    ensures { IsTrue result → IsExact instance.now matching.now.item_prices.items matching.now.bin_prices.items item bin }
{
    let price = price_at(matching.item_prices.as_slice(), item);
    let bin_price = price_at(matching.bin_prices.as_slice(), bin);
    u64::from(price) + u64::from(bin_price) == u64::from(instance.weight(item, bin))
}

/// Whether a bin comes after the item's own by rank.
fn is_forward(matching: &Matching, tables: &SearchTables, item: usize, bin: usize) -> bool
    ensures { IsTrue result → IsForward matching.now.seating.seats tables.now.ranks item bin }
{
    match matching.seating.bin_of(item) {
        Some(from) => tables.rank(from) < tables.rank(bin),
        None => true,
    }
}

/// Whether a bin has room, or an item whose turn has not come.
fn is_open(instance: &Instance, matching: &Matching, turns: &[usize], bin: usize) -> bool {
    let count = matching.seating.count(bin);
    if count < instance.capacity(bin) {
        return true;
    }
    match turns.get(bin) {
        Some(turn) => *turn < count,
        None => false,
    }
}

/// The next bin of the item's row that a walk may go to.
fn next_bin(
    instance: &Instance,
    matching: &Matching,
    tables: &SearchTables,
    turns: &[usize],
    arcs: &mut Vec<usize>,
    item: usize,
) -> Option<usize>
    requires { item < length arcs.old.items }
    ensures link { IfSome result (λ b. IsLink instance.now matching.now.seating.seats matching.now.item_prices.items matching.now.bin_prices.items tables.now.ranks item b) }
    ensures arcs { length arcs.new.items ≡ length arcs.old.items }
{
    let row = instance.row(item);
    for place in arcs[item]..row.len() {
        let bin = row[place] as usize;
        if is_forward(matching, tables, item, bin)
            && is_exact(instance, matching, item, bin)
            && is_open(instance, matching, turns, bin)
        {
            arcs[item] = place;
            return Some(bin);
        }
    }
    arcs[item] = row.len();
    None
}

/// The item of a bin whose turn it is.
fn member_at(matching: &Matching, turns: &[usize], bin: usize) -> Option<usize>
    ensures { IfSome result (λ t. seat matching.now.seating.seats t ≡ Some bin) }
{
    let turn = *turns.get(bin)?;
    let item = matching.seating.members(bin).get(turn)?;
    Some(*item)
}

/// Goes on from an item to a bin: to the next item, or to an end.
fn enter(
    instance: &Instance,
    matching: &Matching,
    turns: &[usize],
    tables: &mut SearchTables,
    item: usize,
    bin: usize,
) -> Option<usize>
    requires distances { bin < length tables.old.distances }
    requires vias { bin < length tables.old.vias }
    requires mark { tables.old.cost ≤ slice_index tables.old.distances bin }
    ensures entered { IsEntered item bin tables.old tables.new }
    ensures some { IfSome result (λ t. (t ≡ item) ⊎ (seat matching.now.seating.seats t ≡ Some bin)) }
    ensures none { IfNone result (IsWalkEnd instance.now matching.now.seating.seats matching.now.item_prices.items bin tables.new.end) }
{
    let mark = tables.cost();
    tables.lower(bin, mark, item);
    if matching.seating.count(bin) < instance.capacity(bin) {
        tables.end_at(mark, End::Room(bin));
        return None;
    }
    match member_at(matching, turns, bin) {
        Some(other) => {
            if price_at(matching.item_prices.as_slice(), other) == 0 {
                tables.end_at(mark, End::Uncover(other, bin));
                return None;
            }
            Some(other)
        }
        None => Some(item),
    }
}

/// Goes back to the item before, and gives the turn to the next item of the bin.
fn back(
    matching: &Matching,
    turns: &mut Vec<usize>,
    stack: &mut Vec<usize>,
    item: usize,
) -> Option<usize>
    ensures turns { length turns.new.items ≡ length turns.old.items }
    ensures some { IfSome result (λ t. Contains stack.old.items t) }
    ensures rest { (t : ℕ) → Contains stack.new.items t → Contains stack.old.items t }
{
    if let Some(bin) = matching.seating.bin_of(item) {
        if bin < turns.len() {
            turns[bin] = turns[bin].saturating_add(1);
        }
    }
    stack.pop()
}

/// Whether there is a way from the item to an end, depth first. No more turns are needed than each item has to come and go.
fn find(
    instance: &Instance,
    matching: &Matching,
    item: usize,
    walks: &mut Walks,
) -> Result<bool, AllocError>
    requires item { item < items_of instance.now }
    requires sound { IsSound instance.now matching.now.seating.seats matching.now.item_prices.items matching.now.bin_prices.items }
    requires sizes { HasTables instance.now walks.old.arcs.items walks.old.turns.items walks.old.tables }
    requires fresh { (b : ℕ) → b < bins_of instance.now → walks.old.tables.cost < slice_index walks.old.tables.distances b }
    ensures way { IfOk result (λ found. IsTrue found → HasWay instance.now matching.now.seating.seats matching.now.item_prices.items matching.now.bin_prices.items item walks.new.tables.distances walks.new.tables.vias walks.new.tables.ranks walks.new.tables.cost walks.new.tables.end) }
    ensures sizes { OnOk result (HasTables instance.now walks.new.arcs.items walks.new.turns.items walks.new.tables) }
{
    instance.is_problem();
    walks.stack.clear();
    let mut top = item;
    for _ in 0..2 * instance.items() {
        match next_bin(
            instance,
            matching,
            &walks.tables,
            walks.turns.as_slice(),
            &mut walks.arcs,
            top,
        ) {
            Some(bin) => {
                match enter(
                    instance,
                    matching,
                    walks.turns.as_slice(),
                    &mut walks.tables,
                    top,
                    bin,
                ) {
                    Some(next) => {
                        walks.stack.push(top)?;
                        top = next;
                    }
                    None => return Ok(true),
                }
            }
            None => match back(matching, &mut walks.turns, &mut walks.stack, top) {
                Some(below) => top = below,
                None => return Ok(false),
            },
        }
    }
    Ok(false)
}

/// Seats an item, if a walk finds a way.
fn walk(
    instance: &Instance,
    matching: &mut Matching,
    item: usize,
    walks: &mut Walks,
) -> Result<(), AllocError>
    requires item { item < items_of instance.now }
    requires sound { IsSound instance.now matching.old.seating.seats matching.old.item_prices.items matching.old.bin_prices.items }
    requires new { seat matching.old.seating.seats item ≡ None }
    requires bins { matching.old.seating.bins ≡ bins_of instance.now }
    requires sizes { HasTables instance.now walks.old.arcs.items walks.old.turns.items walks.old.tables }
    ensures better { OnOk result (IsBetter instance.now matching.old.seating.seats matching.old.item_prices.items matching.new.seating.seats matching.new.item_prices.items matching.new.bin_prices.items) }
    ensures bins { OnOk result (matching.new.seating.bins ≡ bins_of instance.now) }
    ensures sizes { OnOk result (HasTables instance.now walks.new.arcs.items walks.new.turns.items walks.new.tables) }
{
    let last = walks.tables.cost();
    if last == 0 {
        return Ok(());
    }
    walks.tables.end_at(last - 1, End::Leave);
    if find(instance, matching, item, walks)? {
        follow(instance, matching, item, &walks.tables)?;
    }
    Ok(())
}

/// Whether an item has a price and no bin.
pub fn is_waiting(matching: &Matching, item: usize) -> bool
    ensures yes { IsTrue result → IsWaiting matching.now.seating.seats matching.now.item_prices.items item }
    ensures no { IsWaiting matching.now.seating.seats matching.now.item_prices.items item → IsTrue result }
{
    matching.seating.bin_of(item).is_none() && price_at(matching.item_prices.as_slice(), item) > 0
}

/// The least price of an item that the prices of its bins allow.
fn least_price(instance: &Instance, matching: &Matching, item: usize) -> u32
    ensures { (b : ℕ) → IsAllowed instance.now item b → weight_of instance.now item b ≤ result + slice_index matching.now.bin_prices.items b }
{
    let mut least = 0;
    for bin in instance.row(item) {
        let bin = *bin as usize;
        let bin_price = price_at(matching.bin_prices.as_slice(), bin);
        least = least.max(instance.weight(item, bin).saturating_sub(bin_price));
    }
    least
}

/// Lowers the price of an item in no bin as far as the prices of its bins allow.
fn lower_price(instance: &Instance, matching: &mut Matching, item: usize)
    requires item { item < items_of instance.now }
    requires sound { IsSound instance.now matching.old.seating.seats matching.old.item_prices.items matching.old.bin_prices.items }
    requires new { seat matching.old.seating.seats item ≡ None }
    ensures better { IsBetter instance.now matching.old.seating.seats matching.old.item_prices.items matching.new.seating.seats matching.new.item_prices.items matching.new.bin_prices.items }
    ensures seating { matching.new.seating ≡ matching.old.seating }
{
    let least = least_price(instance, matching, item);
    if least < matching.item_prices[item] {
        matching.item_prices[item] = least;
    }
}

/// Ranks the bins of an item to which it has exact pairs, if they have no rank that is as low.
fn reach(
    instance: &Instance,
    matching: &Matching,
    item: usize,
    rank: usize,
    tables: &mut SearchTables,
    queue: &mut Vec<usize>,
) -> Result<(), AllocError>
    requires { HasBins (bins_of instance.now) tables.old }
    ensures same { OnOk result (tables.new ≡ record tables.old { ranks = tables.new.ranks }) }
    ensures bins { OnOk result (HasBins (bins_of instance.now) tables.new) }
{
    instance.is_problem();
    tables.look(instance.row(item).len());
    for bin in instance.row(item) {
        let bin = *bin as usize;
        if tables.rank(bin) > rank && is_exact(instance, matching, item, bin) {
            tables.rank_as(bin, rank);
            queue.push(bin)?;
        }
    }
    Ok(())
}

/// Whether a walk can end at a bin: it has room, or an item with no price.
fn is_end(instance: &Instance, matching: &Matching, bin: usize) -> bool {
    let members = matching.seating.members(bin);
    if members.len() < instance.capacity(bin) {
        return true;
    }
    for item in members {
        if price_at(matching.item_prices.as_slice(), *item) == 0 {
            return true;
        }
    }
    false
}

/// Ranks each bin by the least count of exact pairs on a way to it from an item that waits. Says whether a walk can end at one
/// that it ranked.
fn rank_bins(
    alloc: Global,
    instance: &Instance,
    matching: &Matching,
    tables: &mut SearchTables,
) -> Result<bool, AllocError>
    requires { HasBins (bins_of instance.now) tables.old }
    ensures same { OnOk result (tables.new ≡ record tables.old { ranks = tables.new.ranks }) }
    ensures bins { OnOk result (HasBins (bins_of instance.now) tables.new) }
{
    let mut queue = Vec::new(alloc);
    for item in 0..instance.items() {
        if is_waiting(matching, item) {
            reach(instance, matching, item, 0, tables, &mut queue)?;
        }
    }
    let mut has_end = false;
    for place in 0..instance.bins() {
        let Some(bin) = queue.as_slice().get(place) else {
            return Ok(has_end);
        };
        let bin = *bin;
        if !has_end {
            has_end = is_end(instance, matching, bin);
        }
        let rank = tables.rank(bin).saturating_add(1);
        for item in matching.seating.members(bin) {
            reach(instance, matching, *item, rank, tables, &mut queue)?;
        }
    }
    Ok(has_end)
}

/// Lowers the prices of the items that wait.
fn lower_prices(instance: &Instance, matching: &mut Matching)
    requires sound { IsSound instance.now matching.old.seating.seats matching.old.item_prices.items matching.old.bin_prices.items }
    ensures better { IsBetter instance.now matching.old.seating.seats matching.old.item_prices.items matching.new.seating.seats matching.new.item_prices.items matching.new.bin_prices.items }
    ensures seating { matching.new.seating ≡ matching.old.seating }
{
    for item in 0..instance.items() {
        if is_waiting(matching, item) {
            lower_price(instance, matching, item);
        }
    }
}

/// Walks from each item that waits, and says whether one was seated.
fn walk_all(
    instance: &Instance,
    matching: &mut Matching,
    walks: &mut Walks,
) -> Result<bool, AllocError>
    requires sound { IsSound instance.now matching.old.seating.seats matching.old.item_prices.items matching.old.bin_prices.items }
    requires bins { matching.old.seating.bins ≡ bins_of instance.now }
    requires sizes { HasTables instance.now walks.old.arcs.items walks.old.turns.items walks.old.tables }
    ensures better { OnOk result (IsBetter instance.now matching.old.seating.seats matching.old.item_prices.items matching.new.seating.seats matching.new.item_prices.items matching.new.bin_prices.items) }
    ensures bins { OnOk result (matching.new.seating.bins ≡ bins_of instance.now) }
    ensures sizes { OnOk result (HasTables instance.now walks.new.arcs.items walks.new.turns.items walks.new.tables) }
{
    let mut seated = false;
    for item in 0..instance.items() {
        if is_waiting(matching, item) {
            walk(instance, matching, item, walks)?;
            if !is_waiting(matching, item) {
                seated = true;
            }
        }
    }
    Ok(seated)
}

impl Walks {
    pub fn new(alloc: Global, instance: &Instance) -> Result<Walks, AllocError>
        ensures items { IfOk result (λ w. length w.arcs.items ≡ items_of instance.now) }
        ensures turns { IfOk result (λ w. length w.turns.items ≡ bins_of instance.now) }
        ensures bins { IfOk result (λ w. HasBins (bins_of instance.now) w.tables) }
    {
        let tables = SearchTables::new(alloc, instance.bins())?;
        let arcs = vec![in alloc; 0; instance.items()]?;
        let turns = vec![in alloc; 0; instance.bins()]?;
        Ok(Walks {
            tables,
            arcs,
            turns,
            stack: Vec::new(alloc),
        })
    }
}

/// Forgets the last round.
fn renew(instance: &Instance, walks: &mut Walks)
    requires items { length walks.old.arcs.items ≡ items_of instance.now }
    requires turns { length walks.old.turns.items ≡ bins_of instance.now }
    requires bins { HasBins (bins_of instance.now) walks.old.tables }
    ensures { HasTables instance.now walks.new.arcs.items walks.new.turns.items walks.new.tables }
{
    walks.tables.begin(instance.items() as u64 + 1);
    walks.arcs.fill(0);
    walks.turns.fill(0);
}

/// One round of walks. Says whether an item was seated.
fn walk_round(
    alloc: Global,
    instance: &Instance,
    matching: &mut Matching,
    walks: &mut Walks,
) -> Result<bool, AllocError>
    requires sound { IsSound instance.now matching.old.seating.seats matching.old.item_prices.items matching.old.bin_prices.items }
    requires seats { matching.old.seating.bins ≡ bins_of instance.now }
    requires items { length walks.old.arcs.items ≡ items_of instance.now }
    requires turns { length walks.old.turns.items ≡ bins_of instance.now }
    requires bins { HasBins (bins_of instance.now) walks.old.tables }
    ensures better { OnOk result (IsBetter instance.now matching.old.seating.seats matching.old.item_prices.items matching.new.seating.seats matching.new.item_prices.items matching.new.bin_prices.items) }
    ensures seats { OnOk result (matching.new.seating.bins ≡ bins_of instance.now) }
    ensures sizes { OnOk result (HasTables instance.now walks.new.arcs.items walks.new.turns.items walks.new.tables) }
{
    lower_prices(instance, matching);
    renew(instance, walks);
    if rank_bins(alloc, instance, matching, &mut walks.tables)? {
        walk_all(instance, matching, walks)
    } else {
        Ok(false)
    }
}

/// Rounds of walks, as long as one seats an item. Returns how much work that was, in items, bins and pairs looked at.
pub fn walk_rounds(
    alloc: Global,
    instance: &Instance,
    matching: &mut Matching,
    walks: &mut Walks,
) -> Result<u64, AllocError>
    requires sound { IsSound instance.now matching.old.seating.seats matching.old.item_prices.items matching.old.bin_prices.items }
    requires seats { matching.old.seating.bins ≡ bins_of instance.now }
    requires items { length walks.old.arcs.items ≡ items_of instance.now }
    requires turns { length walks.old.turns.items ≡ bins_of instance.now }
    requires bins { HasBins (bins_of instance.now) walks.old.tables }
    ensures better { OnOk result (IsBetter instance.now matching.old.seating.seats matching.old.item_prices.items matching.new.seating.seats matching.new.item_prices.items matching.new.bin_prices.items) }
    ensures seats { OnOk result (matching.new.seating.bins ≡ bins_of instance.now) }
    ensures items { OnOk result (length walks.new.arcs.items ≡ items_of instance.now) }
    ensures turns { OnOk result (length walks.new.turns.items ≡ bins_of instance.now) }
    ensures bins { OnOk result (HasBins (bins_of instance.now) walks.new.tables) }
{
    let each = instance.items() as u64 + instance.bins() as u64;
    let mut work = 0u64;
    for _ in 0..instance.items() {
        let has_seated = walk_round(alloc, instance, matching, walks)?;
        work = work
            .saturating_add(each)
            .saturating_add(walks.tables.looked());
        if !has_seated {
            return Ok(work);
        }
    }
    Ok(work)
}

/// Rounds of walks, if they are due and the item waits. Returns after how much other work they are due again.
pub fn walk_if_due(
    alloc: Global,
    instance: &Instance,
    matching: &mut Matching,
    walks: &mut Walks,
    item: usize,
    due: u64,
) -> Result<u64, AllocError>
    requires sound { IsSound instance.now matching.old.seating.seats matching.old.item_prices.items matching.old.bin_prices.items }
    requires seats { matching.old.seating.bins ≡ bins_of instance.now }
    requires items { length walks.old.arcs.items ≡ items_of instance.now }
    requires turns { length walks.old.turns.items ≡ bins_of instance.now }
    requires bins { HasBins (bins_of instance.now) walks.old.tables }
    ensures better { OnOk result (IsBetter instance.now matching.old.seating.seats matching.old.item_prices.items matching.new.seating.seats matching.new.item_prices.items matching.new.bin_prices.items) }
    ensures seats { OnOk result (matching.new.seating.bins ≡ bins_of instance.now) }
    ensures items { OnOk result (length walks.new.arcs.items ≡ items_of instance.now) }
    ensures turns { OnOk result (length walks.new.turns.items ≡ bins_of instance.now) }
    ensures bins { OnOk result (HasBins (bins_of instance.now) walks.new.tables) }
{
    if due > 0 || !is_waiting(matching, item) {
        return Ok(due);
    }
    walk_rounds(alloc, instance, matching, walks)
}
