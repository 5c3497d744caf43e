//! A fleet made of parts, once there is no fault in them.
ghost use Rattle.std.specs.Prelude.{◌≡◌, ◌≢◌, ◌&&◌, ◌||◌, ◌≤◌, nat_le, nat_lt, length, not, [], None, Some, IfOk, IfSome, IfNone, if◌then◌else◌};
ghost use Rattle.std.specs.List.{list_all, list_any};
ghost use Rattle.lists.specs.Rising.{rises};
ghost use Rattle.fleet.specs.Live.{count_below, is_listed};
ghost use Rattle.fleet.specs.Orderly.{is_of};
ghost use Rattle.fleet.specs.Parts.{are_collectors, are_distinct, are_lists, are_lists_from, are_targets, clashes, fleet_of, have_sources, is_list, none_clash, parts_fault};
ghost use Rattle.fleet.specs.declared.collector.Collector.{Collector};
ghost use Rattle.fleet.specs.declared.known_target.KnownTarget.{KnownTarget};
ghost use Rattle.fleet.specs.declared.limits.TheConstants.{MOST_JOBS};
ghost use Rattle.fleet.specs.declared.error.PartsError.TheVariants.{Memory, RepeatedTarget};

use crate::collector::Collector;
use crate::error::PartsError;
use crate::fleet_parts::FleetParts;
use crate::job::JobSpec;
use crate::jobs::are_jobs;
use crate::known_target::KnownTarget;
use crate::limits::{MOST_BINS, MOST_COLLECTORS, MOST_KNOWN_TARGETS, MOST_LIVE_TARGETS};
use crate::live::{count_marks, listed_marks};
use lists::List;
use std::alloc::{AllocError, Global};

/// The first fault of the parts, but that a target may be there twice.
pub(crate) fn fault_of(alloc: Global, parts: &FleetParts) -> Result<Option<PartsError>, AllocError>
    ensures fault { IfOk result (λ o. IfSome o (λ e. (parts_fault (fleet_of parts.now) ≡ Some e) × (e ≢ Memory))) }
    ensures none { IfOk result (λ o. IfNone o (parts_fault (fleet_of parts.now) ≡ (if are_distinct parts.now.known then None else Some RepeatedTarget))) }
{
    if !are_jobs(parts.jobs.as_slice()) {
        return Ok(Some(PartsError::BadJobs));
    }
    if !are_targets(parts.jobs.len(), parts.known.as_slice()) {
        return Ok(Some(PartsError::BadTargets));
    }
    if !are_lists(alloc, parts)? {
        return Ok(Some(PartsError::BadLists));
    }
    if !are_collectors(parts) {
        return Ok(Some(PartsError::BadCollectors));
    }
    Ok(None)
}

/// Whether there are not too many targets, each of one of so many jobs.
fn are_targets(jobs: usize, known: &[KnownTarget]) -> bool
    ensures { result ≡ are_targets jobs known.now }
{
    if known.len() > MOST_KNOWN_TARGETS {
        return false;
    }
    are_homed(jobs, known)
}

/// Whether each target is of one of so many jobs.
fn are_homed(jobs: usize, known: &[KnownTarget]) -> bool
    ensures { result ≡ list_all (λ (k : KnownTarget). nat_lt k.job jobs) known.now }
{
    known.iter().all(|target| target.job < jobs)
}

/// Whether the lists are those of the jobs, and not too many targets are live.
fn are_lists(alloc: Global, parts: &FleetParts) -> Result<bool, AllocError>
    ensures { IfOk result (λ b. b ≡ are_lists (fleet_of parts.now)) }
{
    let listed = parts.listed.as_slice();
    if !have_sources(parts.jobs.as_slice(), listed) {
        return Ok(false);
    }
    if !are_all_lists(parts.known.as_slice(), listed) {
        return Ok(false);
    }
    let live = live_count(alloc, listed, parts.known.len())?;
    Ok(live <= MOST_LIVE_TARGETS)
}

/// Whether each job has a list for each of its sources.
fn have_sources(jobs: &[JobSpec], listed: &[List<List<usize>>]) -> bool
    ensures { result ≡ have_sources jobs.now listed.now }
{
    if jobs.len() != listed.len() {
        return false;
    }
    for i in 0..jobs.len() {
        if listed[i].len() != jobs[i].sources as usize {
            return false;
        }
    }
    true
}

/// Whether each list is one of its job.
fn are_all_lists(known: &[KnownTarget], listed: &[List<List<usize>>]) -> bool
    ensures { result ≡ are_lists_from known.now 0 listed.now }
{
    for job in 0..listed.len() {
        if !are_lists_of(known, job, listed[job].as_slice()) {
            return false;
        }
    }
    true
}

fn are_lists_of(known: &[KnownTarget], job: usize, sources: &[List<usize>]) -> bool
    ensures { result ≡ list_all (is_list known.now job) sources.now }
{
    sources
        .iter()
        .all(|numbers| is_list(known, job, numbers.as_slice()))
}

/// Whether these are targets of the job, in ascending order.
fn is_list(known: &[KnownTarget], job: usize, numbers: &[usize]) -> bool
    ensures { result ≡ is_list known.now job numbers.now }
{
    if !are_of(known, job, numbers) {
        return false;
    }
    rises(numbers)
}

/// Whether the targets of these numbers are of the job.
fn are_of(known: &[KnownTarget], job: usize, numbers: &[usize]) -> bool
    ensures { result ≡ list_all (is_of known.now job) numbers.now }
{
    numbers.iter().all(|number| is_of(known, job, *number))
}

/// Whether the target of the number is one of the job.
fn is_of(known: &[KnownTarget], job: usize, number: usize) -> bool
    ensures { result ≡ is_of known.now job number }
{
    match known.get(number) {
        Some(target) => target.job == job,
        None => false,
    }
}

/// Whether each number is below the next.
fn rises(numbers: &[usize]) -> bool
    ensures { result ≡ rises numbers.now }
{
    for i in 1..numbers.len() {
        if numbers[i] <= numbers[i - 1] {
            return false;
        }
    }
    true
}

/// How many of so many targets a source lists.
fn live_count(
    alloc: Global,
    listed: &[List<List<usize>>],
    known: usize,
) -> Result<usize, AllocError>
    ensures { IfOk result (λ n. n ≡ count_below (is_listed listed.now) known) }
{
    let marks = listed_marks(alloc, listed, known)?;
    Ok(count_marks(marks.as_slice()))
}

/// Whether there are not too many collectors, in order of their numbers, each given and each with a name of its own.
fn are_collectors(parts: &FleetParts) -> bool
    requires few { length parts.now.jobs ≤ MOST_JOBS }
    ensures { result ≡ are_collectors (fleet_of parts.now) }
{
    let collectors = parts.collectors.as_slice();
    if collectors.len() > MOST_COLLECTORS || parts.jobs.len() * collectors.len() > MOST_BINS {
        return false;
    }
    if !are_given(collectors, parts.last_collector) {
        return false;
    }
    none_clash(collectors)
}

fn are_given(collectors: &[Collector], last: u32) -> bool
    ensures { result ≡ list_all (λ (c : Collector). nat_le c.id last) collectors.now }
{
    collectors.iter().all(|collector| collector.id <= last)
}

fn none_clash(collectors: &[Collector]) -> bool
    ensures { result ≡ none_clash clashes [] collectors.now }
{
    for i in 0..collectors.len() {
        if clashes(&collectors[..i], &collectors[i]) {
            return false;
        }
    }
    true
}

/// Whether one of those before has the collector's name, or no earlier number.
fn clashes(before: &[Collector], collector: &Collector) -> bool
    ensures { result ≡ list_any (clashes collector.now) before.now }
{
    before.iter().any(|other| other.name.as_str() == collector.name.as_str()
        || other.id >= collector.id)
}
