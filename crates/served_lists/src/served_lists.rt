//! The lists that were served last.
ghost use Rattle.std.specs.Prelude.{◌≡◌, ◌≤◌, ◌==◌, ◌&&◌, [], length, not, IfOk, IsTrue, OnOk, OnErr};
ghost use Rattle.fleet.specs.declared.limits.TheConstants.{MOST_KNOWN_TARGETS};
ghost use Rattle.served_lists.specs.Served.{count_had, is_job_or_any, left_out_of, listed_of, nothing_served, number_of, slot_of, with_list, with_number, without_list, without_numbers};

use crate::list::{ServedList, list_for};
use crate::same::slots_stay;
use crate::slots::{follow, let_go, make_room, slot_of};
use crate::{CollectorId, TargetId};
use fleet::KnownTarget;
use indexmap::IndexMap;
use std::alloc::{AllocError, Global};
use std::marker::Model;

/// Which list has a target, and which allocation a list is of. Contracts see a `Served`.
#[derive(Drop)]
pub struct ServedLists {
    alloc: Global,
    slots: Vec<CollectorId>,
    numbers: IndexMap<(CollectorId, usize), u32>,
}

impl Model for ServedLists {
    ghost use Rattle.std.specs.Prelude.{◌≤◌, length};
    ghost use Rattle.fleet.specs.declared.limits.TheConstants.{MOST_KNOWN_TARGETS};
    ghost use Rattle.served_lists.specs.Served.{Served};

    ghost Value = { Served };

    ghost view = { λ s. record { slots = s.slots.items; numbers = s.numbers.entries } };

    ghost invariant = { λ s. length s.slots.items ≤ MOST_KNOWN_TARGETS };
}

impl ServedLists {
    /// No list was served. It takes no memory.
    pub fn open(alloc: Global) -> ServedLists
        ensures { result ≡ nothing_served }
    {
        ServedLists {
            alloc,
            slots: Vec::new(alloc),
            numbers: IndexMap::new(alloc),
        }
    }

    /// These slots tell whose list has a target, and no list is of an allocation any more. It takes no memory.
    pub fn carried_over(alloc: Global, slots: Vec<CollectorId>) -> ServedLists
        requires { length slots.items ≤ MOST_KNOWN_TARGETS }
        ensures { result ≡ record { slots = slots.items; numbers = [] } }
    {
        ServedLists {
            alloc,
            slots,
            numbers: IndexMap::new(alloc),
        }
    }

    /// For each target the collector of which a list has it, 0 where none has.
    pub fn slots(&self) -> &[CollectorId]
        ensures { result.now ≡ self.now.slots }
    {
        self.slots.as_slice()
    }

    /// The collector of which a list has a target, 0 where none has.
    pub fn slot(&self, target: TargetId) -> CollectorId
        ensures { result ≡ slot_of self.now.slots target }
    {
        slot_of(self.slots.as_slice(), target)
    }

    /// The number of the allocation that the last list of a job is of that a collector was served, if it was served one.
    pub fn number(&self, collector: CollectorId, job: usize) -> Option<u32>
        ensures { result ≡ number_of self.now.numbers collector job }
    {
        self.numbers.get(&(collector, job)).copied()
    }

    /// What a collector that holds these targets would be served of a job.
    pub fn list(
        &self,
        known: &[KnownTarget],
        collector: CollectorId,
        job: usize,
        held: &[TargetId],
    ) -> Result<ServedList, AllocError>
        ensures listed { IfOk result (λ l. l.listed ≡ listed_of known.now self.now.slots collector job held.now) }
        ensures left_out { IfOk result (λ l. l.left_out ≡ left_out_of known.now self.now.slots collector job held.now) }
    {
        let slots = self.slots.as_slice();
        list_for(self.alloc, known, slots, collector, job, held)
    }

    /// Whether a collector that holds these targets, served its list of a job of the allocation of a number, would have the list
    /// that it has, so that nothing changes.
    pub fn is_unchanged(
        &self,
        known: &[KnownTarget],
        collector: CollectorId,
        job: usize,
        number: u32,
        held: &[TargetId],
    ) -> Result<bool, AllocError>
        ensures same { IfOk result (λ same. IsTrue same → with_list known.now self.now collector job number held.now ≡ self.now) }
        ensures changed { IfOk result (λ same. with_list known.now self.now collector job number held.now ≡ self.now → IsTrue same) }
    {
        let slots = self.slots.as_slice();
        if slots.len() != known.len() || self.number(collector, job) != Some(number) {
            return Ok(false);
        }
        slots_stay(self.alloc, known, slots, collector, job, held)
    }

    /// A collector that holds these targets is served its list of a job, of the allocation of a number. It has what no list of
    /// another collector has. Without memory nothing changes.
    pub fn serve(
        &mut self,
        known: &[KnownTarget],
        collector: CollectorId,
        job: usize,
        number: u32,
        held: &[TargetId],
    ) -> Result<ServedList, AllocError>
        requires { length known.now ≤ MOST_KNOWN_TARGETS }
        ensures listed { IfOk result (λ l. l.listed ≡ listed_of known.now self.old.slots collector job held.now) }
        ensures left_out { IfOk result (λ l. l.left_out ≡ left_out_of known.now self.old.slots collector job held.now) }
        ensures state { OnOk result (self.new ≡ with_list known.now self.old collector job number held.now) }
        ensures err { OnErr result (self.new ≡ self.old) }
    {
        let slots = self.slots.as_slice();
        let list = list_for(self.alloc, known, slots, collector, job, held)?;
        make_room(&mut self.slots, known.len())?;
        set_number(&mut self.numbers, collector, job, number)?;
        let targets = list.listed.as_slice();
        follow(&mut self.slots, known, collector, job, targets);
        Ok(list)
    }

    /// The lists of a collector are let go, that of a job where one is named, and are of no allocation any more. It gives how many
    /// targets they had, and takes no memory.
    pub fn release(
        &mut self,
        known: &[KnownTarget],
        collector: CollectorId,
        job: Option<usize>,
    ) -> u32
        ensures count { result ≡ count_had known.now self.old collector job }
        ensures state { self.new ≡ without_list known.now self.old collector job }
    {
        forget_numbers(&mut self.numbers, collector, job);
        let_go(self.slots.as_mut_slice(), known, collector, job)
    }
}

/// The last list of a collector and a job is of the allocation of this number.
fn set_number(
    numbers: &mut IndexMap<(CollectorId, usize), u32>,
    collector: CollectorId,
    job: usize,
    number: u32,
) -> Result<(), AllocError>
    ensures ok { OnOk result (numbers.new.entries ≡ with_number numbers.old.entries collector job number) }
    ensures err { OnErr result (numbers.new.entries ≡ numbers.old.entries) }
{
    numbers
        .insert((collector, job), number)
        .map_err(AllocError::from)?;
    Ok(())
}

/// Forgets which allocations the lists of a collector are of, that of a job where one is named.
fn forget_numbers(
    numbers: &mut IndexMap<(CollectorId, usize), u32>,
    collector: CollectorId,
    job: Option<usize>,
)
    ensures { numbers.new.entries ≡ without_numbers numbers.old.entries collector job }
{
    numbers.retain(
        |list: &(CollectorId, usize), number: &mut u32| -> bool
            ensures { (result ≡ not ((list.now.0 == collector) && is_job_or_any job list.now.1)) × (number.new ≡ number.old) }
        { list.0 != collector || !is_job_or_any(job, list.1) },
    );
}

/// Whether a job is the one that is named, or none is named.
fn is_job_or_any(named: Option<usize>, job: usize) -> bool
    ensures { result ≡ is_job_or_any named job }
{
    match named {
        Some(named) => job == named,
        None => true,
    }
}
