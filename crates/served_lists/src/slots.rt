//! Slots: for each target the collector of which a list has it, 0 where none has.
ghost use Rattle.std.specs.Prelude.{◌≡◌, ◌<◌, ◌≤◌, ℕ, All, OnOk, if◌then◌else◌, length, vec_capacity};
ghost use Rattle.fleet.specs.Live.{count_below, is_in};
ghost use Rattle.fleet.specs.Orderly.{is_of};
ghost use Rattle.fleet.specs.declared.limits.TheConstants.{MOST_KNOWN_TARGETS};
ghost use Rattle.served_lists.specs.Served.{has, is_free, is_of_any, slot_let_go, slot_of, slot_served, tabulated};

use crate::{CollectorId, TargetId};
use fleet::KnownTarget;
use std::alloc::AllocError;

/// Whether the target of a number is one of a job.
pub(crate) fn is_of(known: &[KnownTarget], job: usize, target: usize) -> bool
    ensures { result ≡ is_of known.now job target }
{
    match known.get(target) {
        Some(known) => known.job == job,
        None => false,
    }
}

fn is_of_any(known: &[KnownTarget], job: Option<usize>, target: usize) -> bool
    ensures { result ≡ is_of_any known.now job target }
{
    match job {
        Some(job) => is_of(known, job, target),
        None => true,
    }
}

/// Whose list has a target.
pub(crate) fn slot_of(slots: &[CollectorId], target: TargetId) -> CollectorId
    ensures { result ≡ slot_of slots.now target }
{
    match slots.get(target as usize) {
        Some(collector) => *collector,
        None => 0,
    }
}

/// Whether no list of another collector has a target.
pub(crate) fn is_free(slots: &[CollectorId], collector: CollectorId, target: TargetId) -> bool
    ensures { result ≡ is_free slots.now collector target }
{
    let slot = slot_of(slots, target);
    slot == 0 || slot == collector
}

/// Lets go of the lists of a collector, that of a job where one is named, and counts their targets.
pub(crate) fn let_go(
    slots: &mut [CollectorId],
    known: &[KnownTarget],
    collector: CollectorId,
    job: Option<usize>,
) -> u32
    requires { length slots.old ≤ MOST_KNOWN_TARGETS }
    ensures count { result ≡ count_below (has known.now slots.old collector job) (length slots.old) }
    ensures slots { slots.new ≡ tabulated (slot_let_go known.now slots.old collector job) (length slots.old) }
{
    let mut count = 0;
    for target in 0..slots.len() {
        if slots[target] == collector && is_of_any(known, job, target) {
            slots[target] = 0;
            count += 1;
        }
    }
    count
}

/// A list of the collector has these targets.
fn claim(slots: &mut [CollectorId], collector: CollectorId, targets: &[TargetId])
    requires { All (λ (t : ℕ). t < length slots.old) targets.now }
    ensures slots { (t : ℕ) → slot_of slots.new t ≡ (if is_in targets.now t then collector else slot_of slots.old t) }
    ensures len { length slots.new ≡ length slots.old }
{
    for target in targets {
        slots[*target as usize] = collector;
    }
}

/// Makes room for so many slots.
pub(crate) fn make_room(slots: &mut Vec<CollectorId>, len: usize) -> Result<(), AllocError>
    ensures room { OnOk result (len ≤ vec_capacity slots.new) }
    ensures items { slots.new.items ≡ slots.old.items }
{
    slots.reserve(len.saturating_sub(slots.len()))
}

/// Makes so many slots, in room that is there. No list has the new targets.
fn fit(slots: &mut Vec<CollectorId>, len: usize)
    requires { len ≤ vec_capacity slots.old }
    ensures len { length slots.new.items ≡ len }
    ensures slots { (t : ℕ) → t < len → slot_of slots.new.items t ≡ slot_of slots.old.items t }
{
    slots.truncate(len);
    while slots.len() < len {
        slots.push_reserved(0);
    }
}

/// A list of the collector, of a job, has these targets and no others.
fn hand_over(
    slots: &mut [CollectorId],
    known: &[KnownTarget],
    collector: CollectorId,
    job: usize,
    targets: &[TargetId],
)
    requires most { length slots.old ≤ MOST_KNOWN_TARGETS }
    requires within { All (λ (t : ℕ). t < length slots.old) targets.now }
    ensures { slots.new ≡ tabulated (slot_served known.now slots.old collector job targets.now) (length slots.old) }
{
    let_go(slots, known, collector, Some(job));
    claim(slots, collector, targets);
}

/// The slots once a collector was served these targets of a job, in room that is there.
pub(crate) fn follow(
    slots: &mut Vec<CollectorId>,
    known: &[KnownTarget],
    collector: CollectorId,
    job: usize,
    targets: &[TargetId],
)
    requires room { length known.now ≤ vec_capacity slots.old }
    requires most { length known.now ≤ MOST_KNOWN_TARGETS }
    requires within { All (λ (t : ℕ). t < length known.now) targets.now }
    ensures { slots.new.items ≡ tabulated (slot_served known.now slots.old.items collector job targets.now) (length known.now) }
{
    fit(slots, known.len());
    hand_over(slots.as_mut_slice(), known, collector, job, targets);
}
