//! Whether a list that is served has what it had.
ghost use Rattle.std.specs.Prelude.{◌≡◌, ◌<◌, ◌≤◌, ℕ, All, IfOk, IsTrue, length};
ghost use Rattle.fleet.specs.declared.limits.TheConstants.{MOST_KNOWN_TARGETS};
ghost use Rattle.served_lists.specs.Served.{listed_of, slot_served, tabulated};

use crate::list::list_for;
use crate::slots::follow;
use crate::{CollectorId, TargetId};
use fleet::KnownTarget;
use std::alloc::{AllocError, Global};

/// Whether each slot stays where a collector that holds these targets is served its list of a job.
pub(crate) fn slots_stay(
    alloc: Global,
    known: &[KnownTarget],
    slots: &[CollectorId],
    collector: CollectorId,
    job: usize,
    held: &[TargetId],
) -> Result<bool, AllocError>
    requires each { length slots.now ≡ length known.now }
    requires most { length slots.now ≤ MOST_KNOWN_TARGETS }
    ensures stays { IfOk result (λ stay. IsTrue stay → tabulated (slot_served known.now slots.now collector job (listed_of known.now slots.now collector job held.now)) (length known.now) ≡ slots.now) }
    ensures moves { IfOk result (λ stay. tabulated (slot_served known.now slots.now collector job (listed_of known.now slots.now collector job held.now)) (length known.now) ≡ slots.now → IsTrue stay) }
{
    let list = list_for(alloc, known, slots, collector, job, held)?;
    slots_stay_with(alloc, known, slots, collector, job, list.listed.as_slice())
}

/// Whether each slot stays where a list of the collector, of a job, has these targets and no others.
fn slots_stay_with(
    alloc: Global,
    known: &[KnownTarget],
    slots: &[CollectorId],
    collector: CollectorId,
    job: usize,
    targets: &[TargetId],
) -> Result<bool, AllocError>
    requires each { length slots.now ≡ length known.now }
    requires most { length slots.now ≤ MOST_KNOWN_TARGETS }
    requires within { All (λ (t : ℕ). t < length known.now) targets.now }
    ensures stays { IfOk result (λ stay. IsTrue stay → tabulated (slot_served known.now slots.now collector job targets.now) (length known.now) ≡ slots.now) }
    ensures moves { IfOk result (λ stay. tabulated (slot_served known.now slots.now collector job targets.now) (length known.now) ≡ slots.now → IsTrue stay) }
{
    let mut served = slots.to_vec(alloc)?;
    follow(&mut served, known, collector, job, targets);
    Ok(served.as_slice() == slots)
}
