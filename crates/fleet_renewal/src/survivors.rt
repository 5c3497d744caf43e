//! Which known targets go on, and their new numbers.
ghost use Rattle.std.specs.Prelude.{◌≡◌, ◌≤◌, ◌==◌, ◌&&◌, ℕ, length, IfOk};
ghost use Rattle.fleet.specs.Fleet.{is_joined};
ghost use Rattle.fleet.specs.Live.{AddsMarks, AreMarks};
ghost use Rattle.fleet_renewal.specs.Renewed.{has_place, is_held, is_served, new_places, place_at, survives};
ghost use Rattle.fleet_renewal.specs.Tables.{AreNumbers, KeepsMarks};

use crate::slots::slot_of;
use fleet::{Fleet, JobSpec, KnownTarget, MOST_KNOWN_TARGETS, job_named};
use std::alloc::{AllocError, Global};

/// For each old job the place of its name in the new list.
pub(crate) fn new_places(
    alloc: Global,
    old: &[JobSpec],
    new: &[JobSpec],
) -> Result<Vec<Option<usize>>, AllocError>
    ensures { IfOk result (λ v. v.items ≡ new_places old.now new.now) }
{
    let mut places = Vec::with_capacity(alloc, old.len())?;
    for job in old {
        places.push(job_named(new, job.name.as_str()))?;
    }
    Ok(places)
}

/// The new place of an old job.
pub(crate) fn place_at(places: &[Option<usize>], job: usize) -> Option<usize>
    ensures { result ≡ place_at places.now job }
{
    match places.get(job) {
        Some(place) => *place,
        None => None,
    }
}

/// Which of the known targets go on, where these are the new places of the jobs.
pub(crate) fn survivors(
    fleet: &Fleet,
    jobs: &[JobSpec],
    places: &[Option<usize>],
    pairs: &[(u32, u32)],
    slots: &[u32],
) -> Result<Vec<bool>, AllocError>
    requires { places.now ≡ new_places fleet.now.jobs jobs.now }
    ensures each { IfOk result (λ v. length v.items ≡ length fleet.now.known) }
    ensures marks { IfOk result (λ v. AreMarks (survives fleet.now pairs.now slots.now jobs.now) v.items) }
{
    let mut marks = fleet.live_marks()?;
    mark_held(marks.as_mut_slice(), fleet, pairs);
    mark_served(marks.as_mut_slice(), slots);
    keep_placed(marks.as_mut_slice(), fleet.known(), places);
    Ok(marks)
}

/// Marks the targets that a live collector holds.
fn mark_held(marks: &mut [bool], fleet: &Fleet, pairs: &[(u32, u32)])
    ensures { AddsMarks (is_held fleet.now pairs.now) marks.old marks.new }
{
    for pair in pairs {
        mark_pair(marks, fleet, *pair);
    }
}

/// Marks the target of a pair of which the collector is live. A number past the last mark is left out.
fn mark_pair(marks: &mut [bool], fleet: &Fleet, pair: (u32, u32))
    ensures { AddsMarks (λ (n : ℕ). (pair.0 == n) && is_joined fleet.now pair.1) marks.old marks.new }
{
    let number = pair.0 as usize;
    if fleet.is_joined(pair.1) && number < marks.len() {
        marks[number] = true;
    }
}

/// Marks the targets that a list has.
fn mark_served(marks: &mut [bool], slots: &[u32])
    ensures { AddsMarks (is_served slots.now) marks.old marks.new }
{
    for number in 0..marks.len() {
        if slot_of(slots, number) != 0 {
            marks[number] = true;
        }
    }
}

/// Takes the marks of targets back of which the job has no new place.
fn keep_placed(marks: &mut [bool], known: &[KnownTarget], places: &[Option<usize>])
    ensures { KeepsMarks (has_place known.now places.now) marks.old marks.new }
{
    for number in 0..marks.len() {
        if !has_place(known, places, number) {
            marks[number] = false;
        }
    }
}

/// Whether the job of a known target has a new place.
fn has_place(known: &[KnownTarget], places: &[Option<usize>], number: usize) -> bool
    ensures { result ≡ has_place known.now places.now number }
{
    match known.get(number) {
        Some(target) => place_at(places, target.job).is_some(),
        None => false,
    }
}

/// The new numbers of the targets that are marked.
pub(crate) fn new_numbers(alloc: Global, marks: &[bool]) -> Result<Vec<Option<u32>>, AllocError>
    requires { length marks.now ≤ MOST_KNOWN_TARGETS }
    ensures { IfOk result (λ v. AreNumbers marks.now v.items) }
{
    let mut numbers = Vec::with_capacity(alloc, marks.len())?;
    let mut count = 0u32;
    for target in 0..marks.len() {
        if marks[target] {
            numbers.push(Some(count))?;
            count += 1;
        } else {
            numbers.push(None)?;
        }
    }
    Ok(numbers)
}
