//! The way back from a plan to an allocation.
ghost use Rattle.std.specs.Prelude.{◌≡◌, ◌<◌, ℕ, None, All, AllPairs, length, slice_index_or, IfOk};
ghost use Rattle.fleet.specs.Fleet.{live_of};
ghost use Rattle.fleet_assignment.specs.Allocation.{allocation_of, pair_by, pairs_from};
ghost use Rattle.fleet_assignment.specs.Beside.{beside};

use crate::table::placed;
use fleet::{Collector, Fleet};
use lists::List;
use std::alloc::{AllocError, Global};

/// A plan's pairs of items and bins as pairs of a target and a collector, in order of target. The live targets are given.
#[tactic(auto, unfolding(crate::specs::Allocation::allocation_of))]
pub fn build_allocation(
    alloc: Global,
    fleet: &Fleet,
    live: &[usize],
    pairs: &[(u32, u32)],
) -> Result<List<(u32, u32)>, AllocError>
    requires { live.now ≡ live_of fleet.now }
    ensures pairs { IfOk result (λ l. l ≡ allocation_of fleet.now pairs.now) }
    ensures ascending { IfOk result (AllPairs (λ (a b : ℕ × ℕ). a.0 < b.0)) }
{
    let pairs = allocation(alloc, fleet.jobs().len(), fleet.collectors(), live, pairs)?;
    Ok(List::from_vec(pairs))
}

/// A plan's pairs as pairs of a target and a collector, in order of target.
fn allocation(
    alloc: Global,
    jobs: usize,
    collectors: &[Collector],
    live: &[usize],
    pairs: &[(u32, u32)],
) -> Result<Vec<(u32, u32)>, AllocError>
    requires numbers { All (λ n. n < 4294967296) live.now }
    requires jobs { 0 < length live.now → 0 < jobs }
    ensures { IfOk result (λ v. v.items ≡ pairs_from jobs collectors.now (beside pairs.now) 0 live.now) }
{
    let bins = placed(alloc, live.len(), pairs)?;
    let pairs = pairs_by(alloc, jobs, collectors, live, bins.as_slice())?;
    Ok(pairs)
}

/// The pairs of the targets, by the bin of each item.
fn pairs_by(
    alloc: Global,
    jobs: usize,
    collectors: &[Collector],
    live: &[usize],
    bins: &[Option<u32>],
) -> Result<Vec<(u32, u32)>, AllocError>
    requires numbers { All (λ n. n < 4294967296) live.now }
    requires jobs { 0 < length live.now → 0 < jobs }
    requires bins { length bins.now ≡ length live.now }
    ensures { IfOk result (λ v. v.items ≡ pairs_from jobs collectors.now (λ i. slice_index_or bins.now i None) 0 live.now) }
{
    let mut pairs = Vec::new(alloc);
    for item in 0..live.len() {
        if let Some(pair) = pair_by(jobs, collectors, bins[item], live[item]) {
            pairs.push(pair)?;
        }
    }
    Ok(pairs)
}

/// The pair of a target and the collector of its bin.
fn pair_by(
    jobs: usize,
    collectors: &[Collector],
    bin: Option<u32>,
    target: usize,
) -> Option<(u32, u32)>
    requires number { target < 4294967296 }
    requires jobs { 0 < jobs }
    ensures { result ≡ pair_by jobs collectors.now bin target }
{
    match bin {
        None => None,
        Some(bin) => match collectors.get(bin as usize / jobs) {
            None => None,
            Some(collector) => Some((target as u32, collector.id)),
        },
    }
}
