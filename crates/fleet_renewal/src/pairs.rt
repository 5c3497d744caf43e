//! The allocation that is carried over.
ghost use Rattle.std.specs.Prelude.{◌≡◌, IfOk};
ghost use Rattle.std.specs.List.{filter_map};
ghost use Rattle.fleet_renewal.specs.Renewed.{carried_pair};
ghost use Rattle.fleet_renewal.specs.Tables.{number_in};

use crate::listing::number_at;
use fleet::Fleet;
use std::alloc::{AllocError, Global};

/// The pairs of which the target goes on and the collector is live, in the new numbers.
pub(crate) fn carried(
    alloc: Global,
    fleet: &Fleet,
    numbers: &[Option<u32>],
    pairs: &[(u32, u32)],
) -> Result<Vec<(u32, u32)>, AllocError>
    ensures { IfOk result (λ v. v.items ≡ filter_map (carried_pair fleet.now (number_in numbers.now)) pairs.now) }
{
    let mut carried = Vec::new(alloc);
    for pair in pairs {
        if let Some(pair) = carried_pair(fleet, numbers, *pair) {
            carried.push(pair)?;
        }
    }
    Ok(carried)
}

fn carried_pair(fleet: &Fleet, numbers: &[Option<u32>], pair: (u32, u32)) -> Option<(u32, u32)>
    ensures { result ≡ carried_pair fleet.now (number_in numbers.now) pair }
{
    if !fleet.is_joined(pair.1) {
        return None;
    }
    match number_at(numbers, pair.0 as usize) {
        Some(number) => Some((number, pair.1)),
        None => None,
    }
}
