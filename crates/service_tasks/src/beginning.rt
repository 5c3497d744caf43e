//! What a service enters before it serves.
use crate::service::Service;
use crate::service_context::ServiceContext;
use crate::shared::Shared;
use crate::told_source::ToldSource;
use alloc_desk::Pass;
use allocation_core::Core;
use fleet_events::Event;
use kept_journal::JournalName;
use label_sets::Target;
use lists::{List, Plain};
use relabel::{Found, Rules};
use sd_documents::Job;
use service_settings::Handover;
use service_state::SourceNote;
use std::alloc::{AllocError, Global};
use std::sync::ledger::Ledger;
use std::sync::{Arc, Wait};
use std::time::Clock;

impl<R: Wait + Clock + Eprint + Copy, L: Ledger, B: Ledger, N: JournalName> Shared<R, L, B, N> {
    /// Enters what a configuration begins with, where no desk was opened for it yet. Where nothing can be kept, that is left to the next
    /// start.
    pub fn begin<S, F, C>(
        &self,
        pass: &mut Pass<L, B, N>,
        service: &Service,
        context: &mut ServiceContext<S, F, C>,
    ) -> Result<(), AllocError> {
        self.note_round(&context.schedule);
        let was_ordered = self.state.is_ordered();
        let is_ordered = service.settings.handover == Handover::Ordered;
        self.state.set_ordered(is_ordered);
        if self.is_broken() {
            self.state.break_down();
            return Ok(());
        }
        if !is_ordered && (was_ordered || context.is_new) {
            self.let_all_go(pass)?;
        }
        if context.is_new {
            self.state.forget_sources(&self.rt);
            self.note_sources(service)?;
            self.enter_static_groups(pass, service.jobs())?;
            let schedule = &mut context.schedule;
            self.follow_collectors(pass, &service.settings, &mut schedule.roster)?;
            schedule.jobs = Arc::try_clone(&service.job_texts)?;
            context.is_new = false;
        }
        Ok(())
    }

    /// Notes for those who look at the service which sources it has, none of them asked yet.
    fn note_sources(&self, service: &Service) -> Result<(), AllocError> {
        for source in &service.sources {
            if let Some(job) = service.jobs().get(source.job) {
                let job = job.name.copy()?;
                let note = SourceNote::unasked(self.alloc, job, source.number);
                self.state.note_refresh(&self.rt, note)?;
            }
        }
        Ok(())
    }

    /// Enters the static groups of each job of which the allocator knows others.
    fn enter_static_groups(
        &self,
        pass: &mut Pass<L, B, N>,
        jobs: &[Job],
    ) -> Result<(), AllocError> {
        for (place, job) in jobs.iter().enumerate() {
            let targets = static_targets(self.alloc, job)?;
            if self.has_static_targets(pass, place, targets.as_slice()) {
                drop(targets);
            } else {
                self.enter_static_targets(pass, job, targets)?;
            }
        }
        Ok(())
    }

    fn enter_static_targets(
        &self,
        pass: &mut Pass<L, B, N>,
        job: &Job,
        targets: List<Target>,
    ) -> Result<(), AllocError> {
        let name = match job.name.copy() {
            Ok(name) => name,
            Err(error) => {
                drop(targets);
                return Err(error);
            }
        };
        let event = Event::Discover {
            job: name,
            source: 0,
            targets,
        };
        match self.enter_list(pass, ToldSource::of_groups(job.name.as_str()), event) {
            Some(_) => Ok(()),
            None => Err(AllocError),
        }
    }

    /// Whether just these targets are listed by the static groups of the job at a place.
    fn has_static_targets(
        &self,
        pass: &mut Pass<L, B, N>,
        place: usize,
        targets: &[Target],
    ) -> bool {
        self.desk.read(
            &self.rt,
            pass,
            |record| is_listed(record.core(), place, targets),
        )
    }
}

fn is_listed(core: &Core, place: usize, targets: &[Target]) -> bool {
    match static_list(core, place) {
        Some(listed) => {
            listed.len() == targets.len()
                && listed
                    .iter()
                    .zip(targets.iter())
                    .all(|(number, target)| is_target(core, *number, target))
        }
        None => false,
    }
}

/// The numbers of the targets that the static groups of the job at a place list.
fn static_list(core: &Core, place: usize) -> Option<&[usize]> {
    let sources = core.fleet().listed().get(place)?;
    Some(sources.as_slice().first()?.as_slice())
}

/// Whether this is the target of a number.
fn is_target(core: &Core, number: usize, target: &Target) -> bool {
    match u32::try_from(number) {
        Ok(number) => match core.fleet().target(number) {
            Some((_, known)) => known.text() == target.text(),
            None => false,
        },
        Err(_) => false,
    }
}

/// What the static groups of a job list.
fn static_targets(alloc: Global, job: &Job) -> Result<List<Target>, AllocError> {
    let Found { targets, .. } = found_in_static_groups(alloc, job)?;
    Ok(targets)
}

/// What is found in the static groups of a job whose rules can be read.
pub fn found_in_static_groups(alloc: Global, job: &Job) -> Result<Found, AllocError> {
    match Rules::read(alloc, job.rules.as_slice()) {
        Ok(rules) => {
            let found = rules.discover(alloc, job, 0, job.static_groups.as_slice());
            drop(rules);
            found
        }
        Err(_) => Err(AllocError),
    }
}
