//! Whose the bins are, how many items each collector has, and how many it may have.
ghost use Rattle.std.specs.Prelude.{◌≡◌, ◌<◌, ◌≤◌, ℕ, IfOk, length, map, slice_index};
ghost use Rattle.price_certificate.specs.Problem.{bins_of};
ghost use Rattle.spread_certificate.specs.Loads.{group_of, worth_at};
ghost use Rattle.spread_certificate.specs.Even.{owner_of, owners_of, with_slack};
ghost use Rattle.spread_certificate.specs.EvenFaults.{AreLoads, AreRooms};
ghost use Rattle.price_certificate.specs.declared.shape.TheConstants.{MOST_ITEMS};

use crate::even::Even;
use lists::List;
use price_certificate::{Instance, count_bins};
use std::alloc::{AllocError, Global};

/// How many collectors there are.
pub(crate) fn owners(instance: &Instance, jobs: u32) -> u32
    requires { 0 < jobs }
    ensures count { result ≡ owners_of instance.now jobs }
    ensures most { result ≤ 16384 }
{
    (instance.bins() as u32).div_ceil(jobs)
}

/// The collector of a bin, and where the bin drains the number past all collectors.
pub(crate) fn group(instance: &Instance, jobs: u32, bin: u32) -> u32
    requires { 0 < jobs }
    ensures { result ≡ group_of instance.now (owner_of jobs) (owners_of instance.now jobs) bin }
{
    if instance.drains(bin as usize) {
        owners(instance, jobs)
    } else {
        bin / jobs
    }
}

/// The number at a place; 0 past the last one.
pub(crate) fn number_at(numbers: &List<u32>, place: usize) -> u32
    ensures { result ≡ slice_index numbers.now place }
{
    match numbers.as_slice().get(place) {
        Some(number) => *number,
        None => 0,
    }
}

/// What a pair with this bin is worth at the levels.
pub(crate) fn level_worth(instance: &Instance, even: &Even, bin: u32) -> u32
    requires { 0 < even.now.jobs }
    ensures { (item : ℕ) → result ≡ worth_at instance.now (owner_of even.now.jobs) even.now.levels even.now.keep item bin }
{
    if instance.drains(bin as usize) {
        return 0;
    }
    let level = number_at(&even.levels, (bin / even.jobs) as usize);
    even.keep.saturating_sub(level)
}

/// So much and so many percent more, rounded up.
pub(crate) fn with_slack(slack: u32, load: usize) -> u64
    requires { load ≤ MOST_ITEMS }
    ensures { result ≡ with_slack slack load }
{
    (load as u64 * (100 + u64::from(slack))).div_ceil(100)
}

/// How many items each group has.
pub(crate) fn count_loads(
    alloc: Global,
    instance: &Instance,
    jobs: u32,
    pairs: &[(u32, u32)],
) -> Result<Vec<usize>, AllocError>
    requires { 0 < jobs }
    ensures { IfOk result (λ v. AreLoads instance.now jobs pairs.now v.items) }
{
    let grouped = group_pairs(alloc, instance, jobs, pairs)?;
    let groups = owners(instance, jobs) as usize + 1;
    count_bins(alloc, groups, grouped.as_slice())
}

/// Each item with its group.
fn group_pairs(
    alloc: Global,
    instance: &Instance,
    jobs: u32,
    pairs: &[(u32, u32)],
) -> Result<Vec<(u32, u32)>, AllocError>
    requires { 0 < jobs }
    ensures { IfOk result (λ v. v.items ≡ map (λ (q : ℕ × ℕ). (q.0, group_of instance.now (owner_of jobs) (owners_of instance.now jobs) q.1)) pairs.now) }
{
    let mut grouped = Vec::with_capacity(alloc, pairs.len())?;
    for pair in pairs {
        let (item, bin) = *pair;
        grouped.push((item, group(instance, jobs, bin)))?;
    }
    Ok(grouped)
}

/// The sum of the caps of each group.
pub(crate) fn sum_caps(
    alloc: Global,
    instance: &Instance,
    jobs: u32,
    caps: &List<u32>,
) -> Result<Vec<u64>, AllocError>
    requires { 0 < jobs }
    ensures { IfOk result (λ v. AreRooms instance.now jobs caps.now v.items) }
{
    let groups = owners(instance, jobs) as usize + 1;
    let mut sums = vec![in alloc; 0u64; groups]?;
    for bin in 0..instance.bins() {
        let group = group(instance, jobs, bin as u32) as usize;
        sums[group] += u64::from(number_at(caps, bin));
    }
    Ok(sums)
}
