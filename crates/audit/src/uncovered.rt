//! Live targets without a holder.
ghost use Rattle.std.specs.Prelude.{◌≡◌, ◌==◌, ◌&&◌, ℕ, Bool, IfOk, count_by};
ghost use Rattle.fleet.specs.Fleet.{is_joined};
ghost use Rattle.fleet_renewal.specs.Renewed.{is_held};
ghost use Rattle.audit.specs.Marks.{TakesMarks};
ghost use Rattle.audit.specs.Tallies.{uncovered};

use allocation_core::Core;
use fleet::Fleet;
use std::alloc::AllocError;

/// How many live targets no live collector holds in the current allocation.
pub(crate) fn uncovered(core: &Core) -> Result<usize, AllocError>
    ensures { IfOk result (λ n. n ≡ uncovered core.now) }
{
    let mut marks = core.fleet().live_marks()?;
    unmark_held(marks.as_mut_slice(), core.fleet(), core.allocation());
    Ok(count_marks(marks.as_slice()))
}

/// Takes the marks of the targets back that a live collector holds.
fn unmark_held(marks: &mut [bool], fleet: &Fleet, pairs: &[(u32, u32)])
    ensures { TakesMarks (is_held fleet.now pairs.now) marks.old marks.new }
{
    for pair in pairs {
        unmark_pair(marks, fleet, *pair);
    }
}

/// Takes the mark of a pair's target back, where its collector is live.
fn unmark_pair(marks: &mut [bool], fleet: &Fleet, pair: (u32, u32))
    ensures { TakesMarks (λ (n : ℕ). (pair.0 == n) && is_joined fleet.now pair.1) marks.old marks.new }
{
    let number = pair.0 as usize;
    if fleet.is_joined(pair.1) && number < marks.len() {
        marks[number] = false;
    }
}

fn count_marks(marks: &[bool]) -> usize
    ensures { result ≡ count_by (λ (mark : Bool). mark) marks.now }
{
    marks.iter().filter(|mark| **mark).count()
}
