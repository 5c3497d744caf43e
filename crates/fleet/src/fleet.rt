//! The fleet, and how it changes.
ghost use Rattle.std.specs.Prelude.{◌≡◌, ◌++◌, ◌∷◌, [], ◌<◌, ◌≤◌, ◌↔◌, ◌≢◌, if◌then◌else◌, Some, None, Ok, Err, false, true, length, map, slice_get, MatchOption, IfErr, IfOk, OnOk, OnErr};
ghost use Rattle.fleet.specs.Fleet.{first_fleet, id_named, is_joined, is_live, live_of};
ghost use Rattle.fleet.specs.IsFleet.{IsFleet};
ghost use Rattle.fleet.specs.Jobs.{are_jobs, sources_at};
ghost use Rattle.reach_rules.specs.Table.{row_of};
ghost use Rattle.fleet.specs.Changes.{listing_of, fleet_after_list, joining_of, join_refusal, fleet_after_join, fleet_after_leave, draining_of, fleet_after_drain, limiting_of, fleet_after_limits, kept_unless, relisted, IsChange};
ghost use Rattle.fleet.specs.Live.{AreMarks};
ghost use Rattle.fleet.specs.Parts.{are_distinct, fleet_of, parts_fault};
ghost use Rattle.fleet.specs.Reached.{reach_rows, reaches_at, targets_at, targets_of};

use crate::collector::{
    Collector, begin_draining, has_id, id_named, is_draining, replace_limits, take_out,
};
use crate::error::{OpenError, PartsError};
use crate::fleet_parts::FleetParts;
use crate::job::JobSpec;
use crate::jobs::{are_for_jobs, are_jobs, job_named, nothing_listed, sources_at};
use crate::known_target::KnownTarget;
use crate::limits::{LAST_COLLECTOR, MOST_BINS, MOST_COLLECTORS};
use crate::listing::list;
use crate::live::{chosen, listed_marks, live_numbers};
use crate::outcome::{
    DrainRefusal, Draining, JoinRefusal, Joining, Limiting, LimitsRefusal, ListRefusal, Listing,
};
use crate::parts::{are_at, has_reach, known_set, reach_table};
use crate::restoring::fault_of;
use indexmap::IndexSet;
use label_sets::Target;
use lists::List;
use reach_rules::{CollectorName, OwnLimits, Reach, ReachTable};
use std::alloc::{AllocError, Global};
use std::marker::Model;

/// Who and what there is. Contracts see it as its state.
#[derive(Drop)]
pub struct Fleet {
    alloc: Global,
    jobs: List<JobSpec>,
    listed: Vec<List<List<usize>>>,
    known: IndexSet<KnownTarget>,
    collectors: Vec<Collector>,
    last_collector: u32,
    table: ReachTable,
}

impl Model for Fleet {
    ghost use Rattle.std.specs.Prelude.{◌≡◌, true};
    ghost use Rattle.fleet.specs.Fleet.{FleetState};
    ghost use Rattle.fleet.specs.IsFleet.{IsFleet};
    ghost use Rattle.fleet.specs.Jobs.{are_jobs};
    ghost use Rattle.fleet.specs.Reached.{reach_rows};

    ghost Value = { FleetState };

    ghost view = { λ f. record { jobs = f.jobs; listed = f.listed.items; known = f.known.keys; collectors = f.collectors.items; last_collector = f.last_collector } };

    ghost invariant = { λ f. IsFleet (record { jobs = f.jobs; listed = f.listed.items; known = f.known.keys; collectors = f.collectors.items; last_collector = f.last_collector }) × (f.table.rows ≡ reach_rows f.collectors.items f.known.keys) × (are_jobs f.jobs ≡ true) };
}

impl Fleet {
    /// The fleet of these jobs: nothing is listed, and nobody joined.
    pub fn open(alloc: Global, jobs: Vec<JobSpec>) -> Result<Fleet, OpenError>
        ensures first { IfOk result (λ f. f ≡ first_fleet jobs.items) }
        ensures bad { (result ≡ Err OpenError.BadJobs) ↔ (are_jobs jobs.items ≡ false) }
    {
        if !are_jobs(jobs.as_slice()) {
            return Err(OpenError::BadJobs);
        }
        let listed = nothing_listed(alloc, jobs.as_slice())?;
        Ok(Fleet {
            alloc,
            jobs: List::from_vec(jobs),
            listed,
            known: IndexSet::new(alloc),
            collectors: Vec::new(alloc),
            last_collector: 0,
            table: ReachTable::open(alloc),
        })
    }

    /// The fleet of this state. Whom a collector reaches is taken over from another fleet, where it is at the same place with the same rules there,
    /// and where the known targets are those that are marked there. No rule is asked then.
    pub fn of_parts(
        alloc: Global,
        jobs: Vec<JobSpec>,
        listed: Vec<List<List<usize>>>,
        known: Vec<KnownTarget>,
        collectors: Vec<Collector>,
        last_collector: u32,
        from: &Fleet,
        marks: &[bool],
    ) -> Result<Fleet, AllocError>
        requires kept { IsFleet (record { jobs = jobs.items; listed = listed.items; known = known.items; collectors = collectors.items; last_collector = last_collector }) }
        requires named { are_jobs jobs.items ≡ true }
        ensures { IfOk result (λ f. f ≡ record { jobs = jobs.items; listed = listed.items; known = known.items; collectors = collectors.items; last_collector = last_collector }) }
    {
        let known = match known_set(alloc, known)? {
            Some(known) => known,
            None => unreachable!(),
        };
        let table = from.table_over(collectors.as_slice(), known.as_slice(), marks)?;
        Ok(Fleet {
            alloc,
            jobs: List::from_vec(jobs),
            listed,
            known,
            collectors,
            last_collector,
            table,
        })
    }

    /// The answers of the collectors' rules for the known targets. Where these are those that are marked here, a collector at the same place with the
    /// same rules is not asked again.
    fn table_over(
        &self,
        collectors: &[Collector],
        known: &[KnownTarget],
        marks: &[bool],
    ) -> Result<ReachTable, AllocError>
        ensures { IfOk result (λ t. t.rows ≡ reach_rows collectors.now known.now) }
    {
        let numbers = chosen(self.alloc, marks)?;
        if are_at(known, self.known.as_slice(), numbers.as_slice()) {
            self.table_at(collectors, known, numbers.as_slice())
        } else {
            reach_table(self.alloc, collectors, known)
        }
    }

    /// The same, where the known targets are those of these numbers here.
    fn table_at(
        &self,
        collectors: &[Collector],
        known: &[KnownTarget],
        numbers: &[usize],
    ) -> Result<ReachTable, AllocError>
        requires { targets_at self.now.known numbers.now ≡ map Some (targets_of known.now) }
        ensures { IfOk result (λ t. t.rows ≡ reach_rows collectors.now known.now) }
    {
        let mut table = ReachTable::open(self.alloc);
        for place in 0..collectors.len() {
            let joined = &collectors[..place];
            self.join_behind(&mut table, joined, &collectors[place], known, numbers)?;
        }
        Ok(table)
    }

    /// A collector joins a table behind others. Where the last of them has its rules, it reaches what that one does.
    fn join_behind(
        &self,
        table: &mut ReachTable,
        joined: &[Collector],
        collector: &Collector,
        known: &[KnownTarget],
        numbers: &[usize],
    ) -> Result<(), AllocError>
        requires joined { table.old.rows ≡ reach_rows joined.now known.now }
        requires targets { targets_at self.now.known numbers.now ≡ map Some (targets_of known.now) }
        ensures { OnOk result (table.new.rows ≡ table.old.rows ++ row_of collector.now.id collector.now.reach (targets_of known.now) ∷ []) }
    {
        let place = joined.len();
        let reach = &collector.reach;
        if place > 0 && has_reach(joined, place - 1, reach) {
            table.join_like(collector.id, reach, place - 1)
        } else {
            self.join_at(table, collector, known, place, numbers)
        }
    }

    /// A collector joins a table. It is not asked where the one at the place here has its rules.
    fn join_at(
        &self,
        table: &mut ReachTable,
        collector: &Collector,
        known: &[KnownTarget],
        place: usize,
        numbers: &[usize],
    ) -> Result<(), AllocError>
        requires { targets_at self.now.known numbers.now ≡ map Some (targets_of known.now) }
        ensures { OnOk result (table.new.rows ≡ table.old.rows ++ row_of collector.now.id collector.now.reach (targets_of known.now) ∷ []) }
    {
        let reach = &collector.reach;
        if has_reach(self.collectors.as_slice(), place, reach) {
            table.join_as(collector.id, reach, &self.table, place, numbers)
        } else {
            table.join(collector.id, reach, known)
        }
    }

    /// The fleet of these parts, or the first fault in them.
    pub fn restored(alloc: Global, parts: FleetParts) -> Result<Fleet, PartsError>
        ensures fleet { IfOk result (λ f. f ≡ fleet_of parts) }
        ensures good { OnOk result (parts_fault (fleet_of parts) ≡ None) }
        ensures fault { IfErr result (λ e. e ≢ PartsError.Memory → parts_fault (fleet_of parts) ≡ Some e) }
    {
        if let Some(fault) = fault_of(alloc, &parts)? {
            return Err(fault);
        }
        Fleet::of_good(alloc, parts)
    }

    /// The fleet of parts that have no fault but that a target may be there twice.
    fn of_good(alloc: Global, parts: FleetParts) -> Result<Fleet, PartsError>
        requires { parts_fault (fleet_of parts) ≡ (if are_distinct parts.known then None else Some PartsError.RepeatedTarget) }
        ensures fleet { IfOk result (λ f. f ≡ fleet_of parts) }
        ensures good { OnOk result (parts_fault (fleet_of parts) ≡ None) }
        ensures fault { IfErr result (λ e. e ≢ PartsError.Memory → parts_fault (fleet_of parts) ≡ Some e) }
    {
        let FleetParts {
            jobs,
            listed,
            known,
            collectors,
            last_collector,
        } = parts;
        let Some(known) = known_set(alloc, known.into_vec())? else {
            return Err(PartsError::RepeatedTarget);
        };
        let table = reach_table(alloc, collectors.as_slice(), known.as_slice())?;
        Ok(Fleet {
            alloc,
            jobs,
            listed: listed.into_vec(),
            known,
            collectors: collectors.into_vec(),
            last_collector,
            table,
        })
    }

    /// A source of a job lists targets, in place of those that it listed before. Where that is refused, or without memory, all
    /// stays as it was.
    #[tactic(auto, unfolding(crate::specs::Changes::listing_of, crate::specs::Changes::fleet_after_list))]
    pub fn list(
        &mut self,
        job: &str,
        source: u32,
        targets: List<Target>,
    ) -> Result<Listing, AllocError>
        ensures listing { IfOk result (λ l. l ≡ listing_of self.old job.now source targets) }
        ensures state { OnOk result (self.new ≡ fleet_after_list self.old job.now source targets) }
        ensures err { OnErr result (self.new ≡ self.old) }
    {
        let job = match job_named(self.jobs.as_slice(), job) {
            Some(job) => job,
            None => return Ok(Listing::Refused(ListRefusal::UnknownJob)),
        };
        if source >= sources_at(self.jobs.as_slice(), job) {
            return Ok(Listing::Refused(ListRefusal::UnknownSource));
        }
        match self.relist(job, source, targets)? {
            Ok((added, removed)) => Ok(Listing::Changed { added, removed }),
            Err(refusal) => Ok(Listing::Refused(refusal)),
        }
    }

    /// The source lists the targets, unless too many were live or known then.
    fn relist(
        &mut self,
        job: usize,
        source: u32,
        targets: List<Target>,
    ) -> Result<Result<(u32, u32), ListRefusal>, AllocError>
        requires job { job < length self.old.jobs }
        requires source { source < sources_at self.old.jobs job }
        ensures change { IfOk result (λ r. IsChange self.old.listed (relisted self.old job source targets).listed (length (relisted self.old job source targets).known) r) }
        ensures state { IfOk result (λ r. self.new ≡ kept_unless r self.old (relisted self.old job source targets)) }
        ensures err { OnErr result (self.new ≡ self.old) }
    {
        let count = self.known.len();
        match list(
            self.alloc,
            &mut self.known,
            &mut self.listed,
            &mut self.table,
            job,
            source as usize,
            targets,
        ) {
            Ok(Ok(counts)) => Ok(Ok(counts)),
            Ok(Err(refusal)) => {
                self.known.truncate(count);
                Ok(Err(refusal))
            }
            Err(error) => {
                self.known.truncate(count);
                Err(error)
            }
        }
    }

    /// A collector joins. Memory is wanted only where nothing is against it.
    #[tactic(auto, unfolding(crate::specs::Changes::joining_of, crate::specs::Changes::fleet_after_join))]
    pub fn join(
        &mut self,
        name: CollectorName,
        reach: Reach,
        limits: OwnLimits,
    ) -> Result<Joining, AllocError>
        ensures joining { IfOk result (λ j. j ≡ joining_of self.old name limits) }
        ensures state { OnOk result (self.new ≡ fleet_after_join self.old name reach limits) }
        ensures err { OnErr result (self.new ≡ self.old) }
        ensures late { OnErr result (join_refusal self.old name limits ≡ None) }
    {
        if !are_for_jobs(self.jobs.as_slice(), limits.entries()) {
            return Ok(Joining::Refused(JoinRefusal::UnknownJob));
        }
        if let Some(id) = id_named(self.collectors.as_slice(), name.as_str()) {
            return Ok(Joining::Refused(JoinRefusal::AlreadyJoined(id)));
        }
        let count = self.collectors.len() + 1;
        if count > MOST_COLLECTORS || self.jobs.len() * count > MOST_BINS {
            return Ok(Joining::Refused(JoinRefusal::TooManyCollectors));
        }
        if self.last_collector >= LAST_COLLECTOR {
            return Ok(Joining::Refused(JoinRefusal::IdsSpent));
        }
        let id = self.last_collector + 1;
        self.collectors.reserve(1)?;
        self.table.join(id, &reach, self.known.as_slice())?;
        self.collectors.push_reserved(Collector {
            id,
            name,
            reach,
            draining: false,
            limits,
        });
        self.last_collector = id;
        Ok(Joining::Joined(id))
    }

    /// A collector leaves. False where no live collector has the number. It takes no memory.
    #[tactic(auto, unfolding(crate::specs::Changes::fleet_after_leave))]
    pub fn leave(&mut self, id: u32) -> bool
        ensures was { result ≡ is_joined self.old id }
        ensures state { self.new ≡ fleet_after_leave self.old id }
    {
        if !has_id(self.collectors.as_slice(), id) {
            return false;
        }
        take_out(&mut self.collectors, id);
        self.table.leave(id);
        true
    }

    /// A live collector drains from now on. It takes no memory.
    #[tactic(auto, unfolding(crate::specs::Changes::draining_of, crate::specs::Changes::fleet_after_drain))]
    pub fn drain(&mut self, id: u32) -> Draining
        ensures draining { result ≡ draining_of self.old id }
        ensures state { self.new ≡ fleet_after_drain self.old id }
    {
        if !has_id(self.collectors.as_slice(), id) {
            return Draining::Refused(DrainRefusal::UnknownCollector);
        }
        if is_draining(self.collectors.as_slice(), id) {
            return Draining::Refused(DrainRefusal::AlreadyDraining);
        }
        begin_draining(self.collectors.as_mut_slice(), id);
        Draining::Drains
    }

    /// A live collector has these limits of its own, in place of all that it had. It takes no memory.
    #[tactic(auto, unfolding(crate::specs::Changes::limiting_of, crate::specs::Changes::fleet_after_limits))]
    pub fn set_limits(&mut self, id: u32, limits: OwnLimits) -> Limiting
        ensures limiting { result ≡ limiting_of self.old id limits }
        ensures state { self.new ≡ fleet_after_limits self.old id limits }
    {
        if !has_id(self.collectors.as_slice(), id) {
            return Limiting::Refused(LimitsRefusal::UnknownCollector);
        }
        if !are_for_jobs(self.jobs.as_slice(), limits.entries()) {
            return Limiting::Refused(LimitsRefusal::UnknownJob);
        }
        replace_limits(self.collectors.as_mut_slice(), id, limits);
        Limiting::LimitsSet
    }

    /// The live targets in order of number.
    pub fn live(&self) -> Result<Vec<usize>, AllocError>
        ensures { IfOk result (λ v. v.items ≡ live_of self.now) }
    {
        live_numbers(self.alloc, self.listed.as_slice(), self.known.len())
    }

    /// The jobs in order. Its contract also says what every fleet keeps.
    pub fn jobs(&self) -> &[JobSpec]
        ensures jobs { result.now ≡ self.now.jobs }
        ensures kept { IsFleet self.now }
        ensures named { are_jobs self.now.jobs ≡ true }
        ensures good { parts_fault self.now ≡ None }
    {
        self.jobs.as_slice()
    }

    /// For each job and source the numbers of the targets that it lists, ascending.
    pub fn listed(&self) -> &[List<List<usize>>]
        ensures { result.now ≡ self.now.listed }
    {
        self.listed.as_slice()
    }

    /// The live collectors in order of number.
    pub fn collectors(&self) -> &[Collector]
        ensures collectors { result.now ≡ self.now.collectors }
        ensures few { length result.now ≤ MOST_COLLECTORS }
    {
        self.collectors.as_slice()
    }

    /// The known targets in order of number, live or not.
    pub fn known(&self) -> &[KnownTarget]
        ensures { result.now ≡ self.now.known }
    {
        self.known.as_slice()
    }

    /// The number of the collector that joined last, 0 where none did.
    pub fn last_collector(&self) -> u32
        ensures { result ≡ self.now.last_collector }
    {
        self.last_collector
    }

    /// Which of the known targets are live, by number.
    pub fn live_marks(&self) -> Result<Vec<bool>, AllocError>
        ensures each { IfOk result (λ v. length v.items ≡ length self.now.known) }
        ensures marks { IfOk result (λ v. AreMarks (is_live self.now) v.items) }
    {
        listed_marks(self.alloc, self.listed.as_slice(), self.known.len())
    }

    /// The number of the live collector of a name.
    pub fn id_named(&self, name: &str) -> Option<u32>
        ensures { result ≡ id_named self.now.collectors name.now }
    {
        id_named(self.collectors.as_slice(), name)
    }

    /// Whether a live collector has the number.
    pub fn is_joined(&self, id: u32) -> bool
        ensures { result ≡ is_joined self.now id }
    {
        has_id(self.collectors.as_slice(), id)
    }

    /// Whether the live collector at a place in order of number reaches the known target of a number. False where either is not
    /// there. No rule is asked.
    pub fn reaches(&self, place: usize, number: usize) -> bool
        ensures { result ≡ reaches_at self.now place number }
    {
        self.table.reaches_at(place, number)
    }

    /// The index of a known target's job, and the target.
    pub fn target(&self, number: u32) -> Option<(usize, &Target)>
        ensures { MatchOption result (slice_get self.now.known number ≡ None)
            (λ r. slice_get self.now.known number ≡ Some (record { job = r.0; target = r.1.now })) }
    {
        match self.known.get_index(number as usize) {
            Some(known) => Some((known.job, &known.target)),
            None => None,
        }
    }
}
