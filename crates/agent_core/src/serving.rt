//! What an agent is to the allocator, and which of its targets are served.
ghost use Rattle.std.specs.Prelude.{◌≡◌, IfOk, filter};
ghost use Rattle.agent_core.specs.Agents.{is_expired, is_listed, is_nobody, places, shown_standing};

use crate::target::Listed;
use indexmap::IndexSet;
use std::alloc::{AllocError, Global};

/// What an agent is to the allocator.
#[derive(Clone, Copy, Debug, PartialEq, Eq)]
pub enum Standing {
    /// It holds no list.
    Nobody,
    /// It holds a list, which is the current one as far as it knows.
    Holding,
    /// It holds a list, and since this time there is another one.
    Following(u64),
}

/// What an agent's Prometheus is served.
#[derive(Clone, Copy, PartialEq, Eq)]
pub enum Serving {
    /// Nothing is known as yet: Prometheus is to keep what it has.
    Unknown,
    /// Empty lists.
    Nothing,
    /// The lists of those that are served.
    Served,
}

pub(crate) fn is_nobody(standing: Standing) -> bool
    ensures { result ≡ is_nobody standing }
{
    match standing {
        Standing::Nobody => true,
        Standing::Holding => false,
        Standing::Following(_) => false,
    }
}

/// Who holds other lists than those that are shown follows from then on.
pub(crate) fn shown_standing(standing: Standing, same: bool, at: u64) -> Standing
    ensures { result ≡ shown_standing standing same at }
{
    match standing {
        Standing::Nobody => Standing::Nobody,
        Standing::Holding if same => Standing::Holding,
        Standing::Holding => Standing::Following(at),
        Standing::Following(since) => Standing::Following(since),
    }
}

/// Whether the allocator was not heard for as long as the lease.
pub(crate) fn is_expired(lease: Option<u64>, heard: u64, now: u64) -> bool
    ensures { result ≡ is_expired lease heard now }
{
    match lease {
        Some(lease) => lease <= now.saturating_sub(heard),
        None => false,
    }
}

/// The places of so many targets.
pub(crate) fn places(alloc: Global, count: usize) -> Result<Vec<usize>, AllocError>
    ensures { IfOk result (λ v. v.items ≡ places count) }
{
    let mut all = Vec::with_capacity(alloc, count)?;
    for place in 0..count {
        all.push(place)?;
    }
    Ok(all)
}

/// Keeps the places of targets that are in lists.
pub(crate) fn keep_listed(served: &mut Vec<usize>, targets: &[Listed], lists: &IndexSet<Listed>)
    ensures { served.new.items ≡ filter (is_listed targets.now lists.now.keys) served.old.items }
{
    served.retain(|place| is_listed(targets, lists, *place));
}

/// Whether the target at a place is in lists.
fn is_listed(targets: &[Listed], lists: &IndexSet<Listed>, place: usize) -> bool
    ensures { result ≡ is_listed targets.now lists.now.keys place }
{
    match targets.get(place) {
        Some(listed) => lists.contains(listed),
        None => false,
    }
}
