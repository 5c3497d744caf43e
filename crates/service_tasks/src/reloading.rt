//! How the configuration is read again.
use crate::configuration::Configuration;
use crate::control::Ending;
use crate::differences::line_of_differences;
use crate::scheduling::Schedule;
use crate::service::{JobText, Service};
use crate::shared::Shared;
use alloc_desk::Pass;
use allocation_core::Core;
use kept_journal::JournalName;
use lists::Text;
use log::{info, warn};
use logfmt::{Logfmt, Quoted};
use std::alloc::{AllocError, Global};
use std::sync::Wait;
use std::sync::ledger::Ledger;
use std::time::Clock;

const BROKEN: &str = "the journal cannot be written\n";

const HANGING: &str = "the device of the journal does not come back: ask again when it does\n";

const NO_MEMORY: &str = "no memory to follow the configuration\n";

/// How many targets are live, and how many of them are of jobs that another configuration has too.
#[derive(Clone, Copy, Drop)]
struct Staying {
    live: u64,
    staying: u64,
}

impl<R: Wait + Clock + Eprint + Copy, L: Ledger, B: Ledger, N: JournalName> Shared<R, L, B, N> {
    /// Reads the configuration again. Where it is faulty, or nothing can be kept now, nothing changes.
    pub(crate) fn reload<C: Configuration>(
        &self,
        pass: &mut Pass<L, B, N>,
        schedule: &mut Schedule<C>,
    ) {
        if self.is_broken() {
            return self.refuse_reload(line_of(self.alloc, BROKEN));
        }
        if schedule.is_hanging {
            return self.refuse_reload(line_of(self.alloc, HANGING));
        }
        match schedule.configuration.read() {
            Ok(()) => self.follow_next(pass, schedule),
            Err(fault) => self.refuse_reload(fault),
        }
    }

    /// Has the desk closed for the configuration that was read, and tells what that changes.
    fn follow_next<C: Configuration>(&self, pass: &mut Pass<L, B, N>, schedule: &mut Schedule<C>) {
        match schedule.configuration.service() {
            Some(next) => {
                self.follow_service(pass, schedule, &next);
                drop(next);
            }
            None => self.refuse_reload(line_of(self.alloc, NO_MEMORY)),
        }
    }

    /// The same for a service that is told.
    fn follow_service<C: Configuration>(
        &self,
        pass: &mut Pass<L, B, N>,
        schedule: &mut Schedule<C>,
        next: &Service,
    ) {
        let Ok((told, line)) = self.differences_of(schedule, next) else {
            return self.refuse_reload(line_of(self.alloc, NO_MEMORY));
        };
        self.log_read(line.as_str());
        self.warn_of_leaving(pass, next.job_texts.as_slice());
        schedule.is_read = true;
        self.state.set_reloaded(&self.rt);
        self.state.reloading().answer(&self.rt, Ok(told));
        self.control.end(&self.rt, Ending::Reload);
    }

    /// What is told of a configuration to who asked for it, and what is logged.
    fn differences_of<C>(
        &self,
        schedule: &Schedule<C>,
        next: &Service,
    ) -> Result<(Text, Text), AllocError> {
        let jobs = (schedule.jobs.as_slice(), next.job_texts.as_slice());
        let collectors = (
            schedule.roster.listed(),
            next.settings.collectors.as_slice(),
        );
        let line = line_of_differences(self.alloc, jobs, collectors)?;
        let changes = line.as_str();
        let told = format!(in self.alloc; "The configuration is read again: {changes}\n")?;
        Ok((Text::from_string(told), line))
    }

    fn log_read(&self, changes: &str) {
        let changes = Quoted(changes);
        info!(Logfmt(self.rt); changes:% = changes; "the configuration is read again");
    }

    /// Warns where fewer than half of the live targets are of jobs that stay.
    fn warn_of_leaving(&self, pass: &mut Pass<L, B, N>, next: &[JobText]) {
        let found = self
            .desk
            .read(&self.rt, pass, |record| staying_of(record.core(), next));
        if let Ok(Staying { live, staying }) = found {
            if staying < live.saturating_sub(staying) {
                warn!(Logfmt(self.rt); live, staying; "fewer than half of the live targets are of jobs that stay");
            }
        }
    }

    fn refuse_reload(&self, fault: Text) {
        self.log_refused(fault.as_str());
        self.state.set_not_reloaded();
        self.state.reloading().answer(&self.rt, Err(fault));
    }

    fn log_refused(&self, fault: &str) {
        let why = Quoted(fault);
        warn!(Logfmt(self.rt); why:% = why; "the configuration is not taken");
    }
}

fn staying_of(core: &Core, next: &[JobText]) -> Result<Staying, AllocError> {
    let mut found = Staying {
        live: 0,
        staying: 0,
    };
    let live = core.fleet().live_marks()?;
    for (target, is_live) in core.fleet().known().iter().zip(live.iter()) {
        if *is_live {
            found.live = found.live.saturating_add(1);
            if stays(core, target.job, next) {
                found.staying = found.staying.saturating_add(1);
            }
        }
    }
    Ok(found)
}

/// Whether another configuration has the job at a place.
fn stays(core: &Core, place: usize, next: &[JobText]) -> bool {
    match core.fleet().jobs().get(place) {
        Some(job) => next
            .iter()
            .any(|other| other.name.as_str() == job.name.as_str()),
        None => false,
    }
}

/// A line as a text, which is empty where there is no memory for it.
fn line_of(alloc: Global, line: &str) -> Text {
    match Text::from_str(alloc, line) {
        Ok(text) => text,
        Err(_) => Text::from_string(String::new(alloc)),
    }
}
