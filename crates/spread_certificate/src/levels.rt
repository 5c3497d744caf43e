//! Each fault of levels that are to show how even a plan is, looked for through the whole.
ghost use Rattle.std.specs.Prelude.{◌≡◌, ◌<◌, ◌≤◌, IfOk, length};
ghost use Rattle.price_certificate.specs.Problem.{items_of, bins_of};
ghost use Rattle.price_certificate.specs.declared.shape.TheConstants.{MOST_ITEMS};
ghost use Rattle.spread_certificate.specs.EvenFaults.{AreLoads, AreRooms, shape_fault, level_fault, row_fault, price_fault, worth_in, sum_fault, load_fault, room_fault, levels_fault};

use crate::even::{Even, MOST_SLACK};
use crate::groups::{count_loads, level_worth, number_at, owners, sum_caps, with_slack};
use crate::verdict::EvenFault;
use lists::List;
use price_certificate::{Instance, MOST_ITEMS, value_of_bins, value_of_items};
use std::alloc::{AllocError, Global};

/// A number that is out of its range, or lists that are too short or too long.
#[tactic(auto, unfolding(crate::specs::EvenFaults::shape_fault))]
pub(crate) fn find_bad_shape(instance: &Instance, even: &Even) -> Option<EvenFault>
    ensures { result ≡ shape_fault instance.now even.now }
{
    if even.jobs == 0 {
        return Some(EvenFault::NoJobs);
    }
    if even.slack > MOST_SLACK {
        return Some(EvenFault::SlackTooHigh(even.slack));
    }
    if even.levels.len() != owners(instance, even.jobs) as usize {
        return Some(EvenFault::WrongLengths);
    }
    if even.item_prices.len() != instance.items() {
        return Some(EvenFault::WrongLengths);
    }
    if even.bin_prices.len() != instance.bins() {
        return Some(EvenFault::WrongLengths);
    }
    None
}

/// The first fault of the levels and their prices, where the witness has these pairs.
#[tactic(auto, unfolding(crate::specs::EvenFaults::levels_fault))]
pub(crate) fn find_bad_levels(
    alloc: Global,
    instance: &Instance,
    caps: &List<u32>,
    even: &Even,
    pairs: &[(u32, u32)],
) -> Result<Option<EvenFault>, AllocError>
    requires jobs { 0 < even.now.jobs }
    requires items { length even.now.item_prices ≡ items_of instance.now }
    requires bins { length even.now.bin_prices ≡ bins_of instance.now }
    requires pairs { length pairs.now ≤ items_of instance.now }
    ensures { IfOk result (λ f. f ≡ levels_fault instance.now caps.now even.now pairs.now) }
{
    instance.is_problem();
    if let Some(fault) = find_high_level(instance, even) {
        return Ok(Some(fault));
    }
    if let Some(fault) = find_low_price(instance, even) {
        return Ok(Some(fault));
    }
    if let Some(fault) = find_different_sums(instance, even, pairs) {
        return Ok(Some(fault));
    }
    let loads = count_loads(alloc, instance, even.jobs, pairs)?;
    if let Some(fault) = find_off_level(instance, even, pairs, loads.as_slice()) {
        return Ok(Some(fault));
    }
    let rooms = sum_caps(alloc, instance, even.jobs, caps)?;
    Ok(find_high_caps(
        instance,
        caps,
        even,
        pairs,
        loads.as_slice(),
        rooms.as_slice(),
    ))
}

/// The first collector whose level is above what a pair can be worth.
#[tactic(auto, unfolding(crate::specs::EvenFaults::level_fault))]
fn find_high_level(instance: &Instance, even: &Even) -> Option<EvenFault>
    requires { 0 < even.now.jobs }
    ensures { result ≡ level_fault instance.now even.now }
{
    for collector in 0..owners(instance, even.jobs) {
        if number_at(&even.levels, collector as usize) > even.keep {
            return Some(EvenFault::LevelTooHigh(collector));
        }
    }
    None
}

/// The least item, and of that the least bin, that are priced below what they are worth at the levels.
#[tactic(auto, unfolding(crate::specs::EvenFaults::price_fault))]
fn find_low_price(instance: &Instance, even: &Even) -> Option<EvenFault>
    requires { 0 < even.now.jobs }
    ensures { result ≡ price_fault instance.now even.now }
{
    for item in 0..instance.items() {
        if let Some(fault) = find_low_pair(instance, even, item) {
            return Some(fault);
        }
    }
    None
}

/// The least bin that is priced too low with this item.
#[tactic(auto, unfolding(crate::specs::EvenFaults::row_fault))]
fn find_low_pair(instance: &Instance, even: &Even, item: usize) -> Option<EvenFault>
    requires jobs { 0 < even.now.jobs }
    requires item { item < items_of instance.now }
    ensures { result ≡ row_fault instance.now even.now item }
{
    instance.is_problem();
    let price = u64::from(number_at(&even.item_prices, item));
    let row = instance.row(item);
    for place in 0..row.len() {
        let bin = row[place];
        let value = price + u64::from(number_at(&even.bin_prices, bin as usize));
        if value < u64::from(level_worth(instance, even, bin)) {
            return Some(EvenFault::PriceTooLow(item as u32, bin));
        }
    }
    None
}

/// The value of the prices and the worth of the pairs, where they differ.
#[tactic(auto, unfolding(crate::specs::EvenFaults::sum_fault))]
fn find_different_sums(instance: &Instance, even: &Even, pairs: &[(u32, u32)]) -> Option<EvenFault>
    requires jobs { 0 < even.now.jobs }
    requires items { length even.now.item_prices ≡ items_of instance.now }
    requires bins { length even.now.bin_prices ≡ bins_of instance.now }
    requires pairs { length pairs.now ≤ items_of instance.now }
    ensures { result ≡ sum_fault instance.now even.now pairs.now }
{
    instance.is_problem();
    let value = value_of_items(even.item_prices.as_slice())
        + value_of_bins(instance, even.bin_prices.as_slice());
    let worth = worth_of_pairs(instance, even, pairs);
    if value == worth {
        None
    } else {
        Some(EvenFault::SumsDiffer(value, worth))
    }
}

/// What the pairs are worth at the levels.
fn worth_of_pairs(instance: &Instance, even: &Even, pairs: &[(u32, u32)]) -> u64
    requires jobs { 0 < even.now.jobs }
    requires pairs { length pairs.now ≤ MOST_ITEMS }
    ensures { result ≡ worth_in instance.now even.now pairs.now }
{
    let mut worth = 0u64;
    for pair in pairs {
        worth += u64::from(level_worth(instance, even, pair.1));
    }
    worth
}

/// The first collector whose load is neither its level nor one more.
#[tactic(auto, unfolding(crate::specs::EvenFaults::load_fault))]
fn find_off_level(
    instance: &Instance,
    even: &Even,
    pairs: &[(u32, u32)],
    loads: &[usize],
) -> Option<EvenFault>
    requires jobs { 0 < even.now.jobs }
    requires loads { AreLoads instance.now even.now.jobs pairs.now loads.now }
    ensures { result ≡ load_fault instance.now even.now pairs.now }
{
    let _ = pairs;
    for collector in 0..owners(instance, even.jobs) {
        let level = number_at(&even.levels, collector as usize) as usize;
        let load = loads[collector as usize];
        if load != level && load != level + 1 {
            return Some(EvenFault::OffLevel(collector));
        }
    }
    None
}

/// The first collector whose caps are together above its load and the slack.
#[tactic(auto, unfolding(crate::specs::EvenFaults::room_fault))]
fn find_high_caps(
    instance: &Instance,
    caps: &List<u32>,
    even: &Even,
    pairs: &[(u32, u32)],
    loads: &[usize],
    rooms: &[u64],
) -> Option<EvenFault>
    requires jobs { 0 < even.now.jobs }
    requires few { length pairs.now ≤ MOST_ITEMS }
    requires loads { AreLoads instance.now even.now.jobs pairs.now loads.now }
    requires rooms { AreRooms instance.now even.now.jobs caps.now rooms.now }
    ensures { result ≡ room_fault instance.now even.now caps.now pairs.now }
{
    let _ = caps;
    let _ = pairs;
    for collector in 0..owners(instance, even.jobs) {
        let most = with_slack(even.slack, loads[collector as usize]);
        if rooms[collector as usize] > most {
            return Some(EvenFault::CapsTooHigh(collector));
        }
    }
    None
}
