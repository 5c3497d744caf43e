//! Each kind of fault, looked for through the whole plan.

ghost use Rattle.std.specs.Prelude.{◌≡◌, ◌==◌, ◌+◌, ◌*◌, ◌<◌, ◌≤◌, ℕ, Option, None, true, false, IfOk, IsTrue, length, replicate, slice_index, sum};
ghost use Rattle.std.specs.List.{list_any};
ghost use Rattle.price_certificate.specs.Problem.{items_of, bins_of, capacity_of, row_of, was_in, weight_of, bin_worth};
ghost use Rattle.price_certificate.specs.Assignment.{left, kept};
ghost use Rattle.price_certificate.specs.Certificate.{sum_below};
ghost use Rattle.price_certificate.specs.Faults.{pair_at, length_fault, number_fault, repeat_fault, reach_fault, limit_fault, row_fault, price_fault, sum_fault, weight_sum, AreEnough, IsCounted, IsEnough, IsEnoughForEach};

use crate::instance::Instance;
use crate::shape::{MOST_ITEMS, no_marks};
use crate::verdict::Fault;
use lists::List;
use std::alloc::{AllocError, Global};

/// A price list that is too short or too long.
pub(crate) fn find_wrong_lengths(
    instance: &Instance,
    item_prices: &[u32],
    bin_prices: &[u32],
) -> Option<Fault>
    ensures { result ≡ length_fault instance.now item_prices.now bin_prices.now }
{
    if item_prices.len() != instance.items() {
        return Some(Fault::WrongLengths);
    }
    if bin_prices.len() != instance.bins() {
        return Some(Fault::WrongLengths);
    }
    None
}

/// The first place whose item or bin is out of range.
#[tactic(auto, unfolding(crate::specs::Faults::number_fault))]
pub(crate) fn find_bad_number(instance: &Instance, pairs: &[(u32, u32)]) -> Option<Fault>
    ensures { result ≡ number_fault instance.now pairs.now }
{
    let items = instance.items();
    let bins = instance.bins();
    for place in 0..pairs.len() {
        let (item, bin) = pairs[place];
        if item as usize >= items {
            return Some(Fault::BadNumber(place as u64));
        }
        if bin as usize >= bins {
            return Some(Fault::BadNumber(place as u64));
        }
    }
    None
}

/// The first place whose item stands earlier.
#[tactic(auto, unfolding(crate::specs::Faults::repeat_fault))]
pub(crate) fn find_item_twice(
    alloc: Global,
    items: usize,
    pairs: &[(u32, u32)],
) -> Result<Option<Fault>, AllocError>
    requires { (place : ℕ) → place < length pairs.now → (pair_at pairs.now place).0 < items }
    ensures { IfOk result (λ f. f ≡ repeat_fault pairs.now) }
{
    let mut seen = no_marks(alloc, items)?;
    for place in 0..pairs.len() {
        let item = pairs[place].0;
        if seen[item as usize] {
            return Ok(Some(Fault::ItemTwice(item)));
        }
        seen[item as usize] = true;
    }
    Ok(None)
}

/// The first pair that is not allowed.
#[tactic(auto, unfolding(crate::specs::Faults::reach_fault))]
pub(crate) fn find_out_of_reach(instance: &Instance, pairs: &[(u32, u32)]) -> Option<Fault>
    ensures { result ≡ reach_fault instance.now pairs.now }
{
    for place in 0..pairs.len() {
        let (item, bin) = pairs[place];
        if !has_bin(instance.row(item as usize), bin) {
            return Some(Fault::OutOfReach(item, bin));
        }
    }
    None
}

/// Whether the bin is in the row.
fn has_bin(row: &[u32], bin: u32) -> bool
    ensures { result ≡ list_any (λ b. b == bin) row.now }
{
    row.iter().any(|b| *b == bin)
}

/// The least bin above its capacity.
pub(crate) fn find_over_limit(
    alloc: Global,
    instance: &Instance,
    pairs: &[(u32, u32)],
) -> Result<Option<Fault>, AllocError>
    ensures { IfOk result (λ f. f ≡ limit_fault instance.now pairs.now) }
{
    let counts = count_bins(alloc, instance.bins(), pairs)?;
    Ok(find_full_bin(instance, pairs, counts.as_slice()))
}

/// How many pairs each bin has.
pub fn count_bins(
    alloc: Global,
    bins: usize,
    pairs: &[(u32, u32)],
) -> Result<Vec<usize>, AllocError>
    ensures { IfOk result (λ v. IsCounted bins pairs.now v.items) }
{
    let mut counts = no_counts(alloc, bins)?;
    for place in 0..pairs.len() {
        let bin = pairs[place].1 as usize;
        if bin < bins {
            counts[bin] += 1;
        }
    }
    Ok(counts)
}

/// A count of 0 for each bin.
fn no_counts(alloc: Global, bins: usize) -> Result<Vec<usize>, AllocError>
    ensures { IfOk result (λ v. v.items ≡ replicate bins 0) }
{
    vec![in alloc; 0; bins]
}

/// The least bin whose count is above its capacity.
#[tactic(auto, unfolding(crate::specs::Faults::limit_fault))]
fn find_full_bin(instance: &Instance, pairs: &[(u32, u32)], counts: &[usize]) -> Option<Fault>
    requires { IsCounted (bins_of instance.now) pairs.now counts.now }
    ensures { result ≡ limit_fault instance.now pairs.now }
{
    let _ = pairs;
    for bin in 0..instance.bins() {
        if counts[bin] > instance.capacity(bin) {
            return Some(Fault::OverLimit(bin as u32));
        }
    }
    None
}

/// The least item, and of that the least bin, that are priced below their weight. A list of bins that items share is looked at
/// once, where none of them is.
pub(crate) fn find_price_too_low(
    alloc: Global,
    instance: &Instance,
    item_prices: &[u32],
    bin_prices: &[u32],
) -> Result<Option<Fault>, AllocError>
    requires items { length item_prices.now ≡ items_of instance.now }
    requires bins { length bin_prices.now ≡ bins_of instance.now }
    ensures { IfOk result (λ f. f ≡ price_fault instance.now item_prices.now bin_prices.now) }
{
    let rows = instance.rows();
    let enough = enough_prices(alloc, instance, rows.lists.as_slice(), bin_prices)?;
    Ok(find_low_item(
        instance,
        rows.list_of.as_slice(),
        enough.as_slice(),
        item_prices,
        bin_prices,
    ))
}

/// For each list of bins a price that is enough for each item with that list, unless it was at one of these bins.
fn enough_prices(
    alloc: Global,
    instance: &Instance,
    lists: &[List<u32>],
    bin_prices: &[u32],
) -> Result<Vec<u64>, AllocError>
    ensures { IfOk result (λ v. AreEnough instance.now bin_prices.now v.items lists.now) }
{
    let mut prices = Vec::with_capacity(alloc, lists.len())?;
    for row in lists {
        prices.push(enough_price(instance, row.as_slice(), bin_prices))?;
    }
    Ok(prices)
}

/// A price that is enough for each item with these bins, unless it was at one of them.
fn enough_price(instance: &Instance, row: &[u32], bin_prices: &[u32]) -> u64
    ensures { IsEnough instance.now bin_prices.now result row.now }
{
    let mut price = 0;
    for bin in row {
        let lack = lack(instance, *bin, bin_prices);
        if lack > price {
            price = lack;
        }
    }
    price
}

/// What a bin's price lacks of what the bin is worth with an item that was elsewhere.
fn lack(instance: &Instance, bin: u32, bin_prices: &[u32]) -> u64
    ensures { bin_worth instance.now bin ≤ result + slice_index bin_prices.now bin }
{
    let worth = instance.bin_worth(bin as usize);
    match bin_prices.get(bin as usize) {
        Some(price) => u64::from(worth.saturating_sub(*price)),
        None => u64::from(worth),
    }
}

/// The least item that is priced too low, and of that the least bin.
#[tactic(auto, unfolding(crate::specs::Faults::price_fault))]
fn find_low_item(
    instance: &Instance,
    list_of: &[u32],
    enough: &[u64],
    item_prices: &[u32],
    bin_prices: &[u32],
) -> Option<Fault>
    requires items { length item_prices.now ≡ items_of instance.now }
    requires bins { length bin_prices.now ≡ bins_of instance.now }
    requires enough { IsEnoughForEach instance.now bin_prices.now enough.now list_of.now }
    ensures { result ≡ price_fault instance.now item_prices.now bin_prices.now }
{
    for item in 0..instance.items() {
        let enough = enough_for(list_of, enough, item);
        if let Some(fault) = find_low_bin(instance, item, enough, item_prices, bin_prices) {
            return Some(fault);
        }
    }
    None
}

/// The price that is enough for an item's list.
fn enough_for(list_of: &[u32], enough: &[u64], item: usize) -> u64
    ensures { result ≡ slice_index enough.now (slice_index list_of.now item) }
{
    let number = match list_of.get(item) {
        Some(number) => *number,
        None => 0,
    };
    match enough.get(number as usize) {
        Some(price) => *price,
        None => 0,
    }
}

/// The least bin that is priced below its weight with this item. The bins are looked at where the item's price is not enough for its
/// list, or where the bin where it was, in the list or not, is priced below its weight with it.
fn find_low_bin(
    instance: &Instance,
    item: usize,
    enough: u64,
    item_prices: &[u32],
    bin_prices: &[u32],
) -> Option<Fault>
    requires item { item < items_of instance.now }
    requires items { length item_prices.now ≡ items_of instance.now }
    requires bins { length bin_prices.now ≡ bins_of instance.now }
    requires enough { IsEnough instance.now bin_prices.now enough (row_of instance.now item) }
    ensures { result ≡ row_fault instance.now item_prices.now bin_prices.now item }
{
    let price = item_prices[item];
    if enough <= u64::from(price) && is_home_priced(instance, item, price, bin_prices) {
        return None;
    }
    find_low_pair(instance, item, item_prices, bin_prices)
}

/// Whether an item and the bin where it was are priced at their weight or above.
fn is_home_priced(instance: &Instance, item: usize, price: u32, bin_prices: &[u32]) -> bool
    ensures { IsTrue result → (bin : ℕ) → was_in instance.now item bin ≡ true → weight_of instance.now item bin ≤ price + slice_index bin_prices.now bin }
{
    match instance.before(item) {
        None => true,
        Some(bin) => {
            let weight = u64::from(instance.weight(item, bin as usize));
            match bin_prices.get(bin as usize) {
                Some(other) => weight <= u64::from(price) + u64::from(*other),
                None => weight <= u64::from(price),
            }
        }
    }
}

/// The least bin that is priced below its weight with this item.
#[tactic(auto, unfolding(crate::specs::Faults::row_fault))]
fn find_low_pair(
    instance: &Instance,
    item: usize,
    item_prices: &[u32],
    bin_prices: &[u32],
) -> Option<Fault>
    requires item { item < items_of instance.now }
    requires items { length item_prices.now ≡ items_of instance.now }
    requires bins { length bin_prices.now ≡ bins_of instance.now }
    ensures { result ≡ row_fault instance.now item_prices.now bin_prices.now item }
{
    instance.is_problem();
    let price = item_prices[item] as u64;
    let row = instance.row(item);
    for place in 0..row.len() {
        let bin = row[place];
        let value = price + bin_prices[bin as usize] as u64;
        if instance.is_worth_more(item, bin as usize, value) {
            return Some(Fault::PriceTooLow(item as u32, bin));
        }
    }
    None
}

/// The value of the prices and the worth of the pairs, where they differ.
#[tactic(auto, unfolding(crate::specs::Faults::sum_fault))]
pub(crate) fn find_different_sums(
    instance: &Instance,
    pairs: &[(u32, u32)],
    item_prices: &[u32],
    bin_prices: &[u32],
) -> Option<Fault>
    requires pairs { length pairs.now ≤ items_of instance.now }
    requires items { length item_prices.now ≡ items_of instance.now }
    requires bins { length bin_prices.now ≡ bins_of instance.now }
    ensures { result ≡ sum_fault instance.now pairs.now item_prices.now bin_prices.now }
{
    instance.is_problem();
    let value = value_of_items(item_prices) + value_of_bins(instance, bin_prices);
    let weight = worth(instance, pairs);
    if value == weight {
        None
    } else {
        Some(Fault::SumsDiffer(value, weight))
    }
}

/// What the pairs are worth.
fn worth(instance: &Instance, pairs: &[(u32, u32)]) -> u64
    requires { length pairs.now ≤ items_of instance.now }
    ensures { result ≡ weight_sum instance.now pairs.now }
{
    let steady = pairs.len() as u64 - count_left(instance, pairs);
    u64::from(instance.cover_worth()) * pairs.len() as u64
        + u64::from(instance.steady_worth()) * steady
        + count_kept(instance, pairs)
}

/// The sum of the items' prices.
pub fn value_of_items(prices: &[u32]) -> u64
    requires { length prices.now ≤ MOST_ITEMS }
    ensures sum { result ≡ sum prices.now }
    ensures most { result ≤ 70368744161280 }
{
    let mut value = 0u64;
    for price in prices {
        value += *price as u64;
    }
    value
}

/// The sum of the bins' prices, each as often as the bin's capacity.
pub fn value_of_bins(instance: &Instance, prices: &[u32]) -> u64
    requires { length prices.now ≡ bins_of instance.now }
    ensures sum { result ≡ sum_below (λ bin. capacity_of instance.now bin * slice_index prices.now bin) (bins_of instance.now) }
    ensures most { result ≤ 1152921504338411520 }
{
    let mut value = 0u64;
    for bin in 0..instance.bins() {
        value += instance.capacity(bin) as u64 * prices[bin] as u64;
    }
    value
}

/// How many pairs are left at draining bins.
pub(crate) fn count_left(instance: &Instance, pairs: &[(u32, u32)]) -> u64
    ensures count { result ≡ left instance.now pairs.now }
    ensures most { result ≤ length pairs.now }
{
    let mut count = 0u64;
    for pair in pairs {
        if instance.drains(pair.1 as usize) {
            count += 1;
        }
    }
    count
}

/// How many pairs of the preceding assignment are kept.
pub(crate) fn count_kept(instance: &Instance, pairs: &[(u32, u32)]) -> u64
    ensures count { result ≡ kept instance.now pairs.now }
    ensures most { result ≤ length pairs.now }
{
    let mut count = 0u64;
    for pair in pairs {
        let (item, bin) = *pair;
        if instance.before(item as usize) == Some(bin) {
            count += 1;
        }
    }
    count
}
