//! What a list keeps that is to let targets go, until it is acknowledged.
ghost use Rattle.std.specs.Prelude.{◌≡◌, length, IfOk, IfSome};
ghost use Rattle.fleet.specs.Orderly.{is_of};
ghost use Rattle.allocation_core.specs.State.{held_by};
ghost use Rattle.sd_server.specs.Keeping.{FindsKept, FindsStaying, goes_of, is_had, kept_among, put_off_among};

use crate::look::Look;
use alloc_desk::Record;
use allocation_core::Core;
use fleet::KnownTarget;
use fleet_events::{CollectorId, TargetId};
use lists::List;
use std::alloc::{AllocError, Global};

/// What a collector's last list of a job keeps, which another collector waits for.
#[derive(Drop)]
pub(crate) struct Keeping {
    pub(crate) look: Look,
    /// The targets that the list is to let go, in order of number: other collectors hold them.
    pub(crate) goes: List<TargetId>,
}

/// What a collector's last list of a job keeps. Nothing where it has no target that another collector holds.
pub(crate) fn kept_at(
    alloc: Global,
    record: &Record,
    place: usize,
    id: CollectorId,
) -> Result<Option<Keeping>, AllocError>
    ensures { IfOk result (λ found. IfSome found (λ k. FindsKept record.now.state place id k.look)) }
{
    let core = record.core();
    let goes = goes_of(alloc, core, place, id)?;
    if goes.is_empty() {
        return Ok(None);
    }
    let held = core.held(id)?;
    let look = look_at_kept(alloc, core, place, id, held.as_slice())?;
    Ok(Some(Keeping {
        look,
        goes: List::from_vec(goes),
    }))
}

/// The targets of a job that the collector's last list has, and another collector holds.
fn goes_of(
    alloc: Global,
    core: &Core,
    place: usize,
    id: CollectorId,
) -> Result<Vec<TargetId>, AllocError>
    ensures { IfOk result (λ v. v.items ≡ goes_of core.now place id) }
{
    let (known, slots) = (core.fleet().known(), core.slots());
    core.allocation()
        .iter()
        .copied()
        .filter(|pair| pair.1 != id)
        .filter(|pair| is_had(slots, id, pair.0))
        .filter(|pair| is_of(known, place, pair.0 as usize))
        .map(|pair| pair.0)
        .collect(alloc)
}

fn look_at_kept(
    alloc: Global,
    core: &Core,
    place: usize,
    id: CollectorId,
    held: &[TargetId],
) -> Result<Look, AllocError>
    requires { held.now ≡ held_by core.now id }
    ensures { IfOk result (FindsStaying core.now place id) }
{
    let (known, slots) = (core.fleet().known(), core.slots());
    let kept = kept_among(alloc, known, slots, place, id, held)?;
    let left_out = count_put_off(alloc, known, slots, place, id, held)?;
    Ok(Look {
        allocation: core.current(),
        round: core.round(),
        left_out: Some(left_out),
        targets: List::from_vec(kept),
    })
}

/// Of these targets, those of a job that the collector's last list has.
fn kept_among(
    alloc: Global,
    known: &[KnownTarget],
    slots: &[CollectorId],
    place: usize,
    id: CollectorId,
    held: &[TargetId],
) -> Result<Vec<TargetId>, AllocError>
    ensures { IfOk result (λ v. v.items ≡ kept_among known.now slots.now place id held.now) }
{
    held.iter()
        .copied()
        .filter(|target| is_of(known, place, *target as usize))
        .filter(|target| is_had(slots, id, *target))
        .collect(alloc)
}

/// How many of these targets are of a job and not in the collector's last list.
fn count_put_off(
    alloc: Global,
    known: &[KnownTarget],
    slots: &[CollectorId],
    place: usize,
    id: CollectorId,
    held: &[TargetId],
) -> Result<u32, AllocError>
    ensures { IfOk result (λ n. n ≡ length (put_off_among known.now slots.now place id held.now)) }
{
    let put_off: Vec<TargetId> = held
        .iter()
        .copied()
        .filter(|target| is_of(known, place, *target as usize))
        .filter(|target| !is_had(slots, id, *target))
        .collect(alloc)?;
    let Ok(count) = u32::try_from(put_off.len()) else {
        return Err(AllocError);
    };
    Ok(count)
}

/// Whether the collector's last list has a target.
fn is_had(slots: &[CollectorId], id: CollectorId, target: TargetId) -> bool
    ensures { result ≡ is_had slots.now id target }
{
    match slots.get(target as usize) {
        Some(collector) => *collector == id,
        None => id == 0,
    }
}

/// Whether the target of a number is one of a job.
fn is_of(known: &[KnownTarget], place: usize, target: usize) -> bool
    ensures { result ≡ is_of known.now place target }
{
    match known.get(target) {
        Some(known) => known.job == place,
        None => false,
    }
}
