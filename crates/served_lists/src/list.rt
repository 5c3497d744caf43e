//! What a list has and what it leaves out.
ghost use Rattle.std.specs.Prelude.{◌≡◌, ℕ, filter, not, IfOk};
ghost use Rattle.fleet.specs.Orderly.{is_of};
ghost use Rattle.served_lists.specs.Served.{is_free, left_out_of, listed_of};

use crate::slots::{is_free, is_of};
use crate::{CollectorId, TargetId};
use fleet::KnownTarget;
use lists::List;
use std::alloc::{AllocError, Global};

/// A list that is served: what it has, and what the collector holds too but another list still has.
#[derive(Drop)]
pub struct ServedList {
    pub listed: List<TargetId>,
    pub left_out: List<TargetId>,
}

/// The list of a job for a collector that holds these targets.
pub(crate) fn list_for(
    alloc: Global,
    known: &[KnownTarget],
    slots: &[CollectorId],
    collector: CollectorId,
    job: usize,
    held: &[TargetId],
) -> Result<ServedList, AllocError>
    ensures listed { IfOk result (λ l. l.listed ≡ listed_of known.now slots.now collector job held.now) }
    ensures left_out { IfOk result (λ l. l.left_out ≡ left_out_of known.now slots.now collector job held.now) }
{
    let of_job = targets_of(alloc, known, job, held)?;
    let list = list_of(alloc, slots, collector, of_job.as_slice());
    drop(of_job);
    list
}

/// The list for a collector that holds these targets of its job.
fn list_of(
    alloc: Global,
    slots: &[CollectorId],
    collector: CollectorId,
    of_job: &[TargetId],
) -> Result<ServedList, AllocError>
    ensures listed { IfOk result (λ l. l.listed ≡ filter (is_free slots.now collector) of_job.now) }
    ensures left_out { IfOk result (λ l. l.left_out ≡ filter (λ (target : ℕ). not (is_free slots.now collector target)) of_job.now) }
{
    let listed = listed_of(alloc, slots, collector, of_job)?;
    match left_out_of(alloc, slots, collector, of_job) {
        Ok(left_out) => Ok(ServedList {
            listed: List::from_vec(listed),
            left_out: List::from_vec(left_out),
        }),
        Err(refused) => {
            drop(listed);
            Err(refused)
        }
    }
}

/// Which of the targets are of a job.
fn targets_of(
    alloc: Global,
    known: &[KnownTarget],
    job: usize,
    held: &[TargetId],
) -> Result<Vec<TargetId>, AllocError>
    ensures { IfOk result (λ v. v.items ≡ filter (is_of known.now job) held.now) }
{
    held.iter()
        .copied()
        .filter(|target| is_of(known, job, *target as usize))
        .collect(alloc)
}

fn listed_of(
    alloc: Global,
    slots: &[CollectorId],
    collector: CollectorId,
    of_job: &[TargetId],
) -> Result<Vec<TargetId>, AllocError>
    ensures { IfOk result (λ v. v.items ≡ filter (is_free slots.now collector) of_job.now) }
{
    of_job
        .iter()
        .copied()
        .filter(|target| is_free(slots, collector, *target))
        .collect(alloc)
}

fn left_out_of(
    alloc: Global,
    slots: &[CollectorId],
    collector: CollectorId,
    of_job: &[TargetId],
) -> Result<Vec<TargetId>, AllocError>
    ensures { IfOk result (λ v. v.items ≡ filter (λ (target : ℕ). not (is_free slots.now collector target)) of_job.now) }
{
    of_job
        .iter()
        .copied()
        .filter(|target| !is_free(slots, collector, *target))
        .collect(alloc)
}
