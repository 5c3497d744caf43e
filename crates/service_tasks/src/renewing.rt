//! What comes between one desk and the next: what nobody needs is forgotten, another journal begins, another configuration is followed.
ghost use Rattle.std.specs.Prelude.{◌≡◌, IfOk, IfSome, IsSome, OnOk, Some, true};
ghost use Rattle.durable_journal.specs.Beginnings.{Opens};
ghost use Rattle.kept_journal.specs.Keeping.{IsOf, IsOfService};
ghost use Rattle.service_tasks.specs.Later.{IsLater, IsRenewed};

use crate::configuration::Configuration;
use crate::journal::Journal;
use crate::logging::{log_error, log_error_of, log_info, log_warning, log_warning_of};
use crate::refreshing::Watch;
use crate::service::Service;
use crate::service_context::{ServiceContext, sources_of};
use crate::source::Source;
use allocation_core::{Core, JobSpec, NotRenewed, ReportRounds};
use durable_journal::{Archive, Device, FirstLine, with_epoch};
use http_get::FetchSeveral;
use journal_files::{NamedCollector, with_names};
use kept_journal::JournalFile;
use lists::copies;
use replay_lines::{are_jobs_of, resume};
use std::alloc::{AllocError, Global};
use std::io;
use std::time::Clock;

/// The allocator to go on with, for a service that follows the configuration that was read again where there is one. The file of the
/// journal led to the allocator that was served, and leads to this one.
#[tactic(auto, using(crate::proofs::Laters::later_refl))]
pub fn continued<R: Clock + Eprint + Copy, S, F, A, C>(
    rt: &R,
    alloc: Global,
    core: Core,
    service: &mut Service,
    context: &mut ServiceContext<S, F, C>,
    archive: &mut A,
) -> io::Result<Core>
where
    S: FetchSeveral + Drop,
    F: Device + Drop,
    A: Archive<F>,
    C: Configuration + Drop,
    requires { IsOfService F.tells F.contents core context.old.journal.file }
    ensures later { IfOk result (IsLater core) }
    ensures file { IfOk result (λ c. IsOfService F.tells F.contents c context.new.journal.file) }
    ensures stays { IsSome context.old.journal.file → IsSome context.new.journal.file }
{
    if context.is_broken() {
        context.stay(rt);
        return Ok(core);
    }
    let epoch = context.next_epoch(rt);
    if !context.schedule.is_read {
        let journal = &mut context.journal;
        let watch = &mut context.watch;
        return renewed(rt, alloc, service, archive, journal, watch, epoch, core);
    }
    context.schedule.is_read = false;
    match context.schedule.configuration.service() {
        Some(next) => reloaded(rt, alloc, service, context, archive, next, epoch, core),
        None => {
            context.refuse(rt);
            Ok(core)
        }
    }
}

/// The allocator under the jobs of another configuration, which the service follows from now on. Where it cannot be renewed under them,
/// all is as it was.
#[tactic(auto, using(crate::proofs::Laters::later_refl))]
fn reloaded<R: Clock + Eprint + Copy, S, F, A, C>(
    rt: &R,
    alloc: Global,
    service: &mut Service,
    context: &mut ServiceContext<S, F, C>,
    archive: &mut A,
    next: Service,
    epoch: u64,
    core: Core,
) -> io::Result<Core>
where
    S: FetchSeveral + Drop,
    F: Device + Drop,
    A: Archive<F>,
    C: Configuration + Drop,
    requires { IsOfService F.tells F.contents core context.old.journal.file }
    ensures later { IfOk result (IsLater core) }
    ensures file { IfOk result (λ c. IsOfService F.tells F.contents c context.new.journal.file) }
    ensures stays { IsSome context.old.journal.file → IsSome context.new.journal.file }
{
    let Ok((jobs, report_rounds, sources)) = parts_of(alloc, &next) else {
        drop(next);
        context.refuse(rt);
        return Ok(core);
    };
    let journal = &mut context.journal;
    let watch = &mut context.watch;
    match under(
        rt,
        alloc,
        &next,
        archive,
        journal,
        watch,
        jobs,
        report_rounds,
        epoch,
        core,
    ) {
        Ok((core, true)) => match followed(service, context, next, sources) {
            Ok(()) => Ok(core),
            Err(error) => {
                drop(core);
                Err(error)
            }
        },
        Ok((core, false)) => {
            drop((next, sources));
            context.state.set_not_reloaded();
            Ok(core)
        }
        Err(error) => {
            drop((next, sources));
            Err(error)
        }
    }
}

/// Another service is followed from now on, with these sources.
fn followed<S, F, C>(
    service: &mut Service,
    context: &mut ServiceContext<S, F, C>,
    next: Service,
    sources: Vec<Source>,
) -> io::Result<()>
where
    S: FetchSeveral + Drop,
    F: Drop,
    C: Configuration + Drop,
    ensures { context.new.journal ≡ context.old.journal }
{
    match context.follow(&next, sources) {
        Ok(()) => {
            drop(std::mem::replace(service, next));
            Ok(())
        }
        Err(error) => {
            drop(next);
            Err(error.into())
        }
    }
}

/// The jobs of a service as an allocator has them, of how many rounds it books reports, and its sources.
fn parts_of(
    alloc: Global,
    service: &Service,
) -> io::Result<(Vec<JobSpec>, ReportRounds, Vec<Source>)> {
    let sources = sources_of(alloc, service)?;
    match machine_of(alloc, service) {
        Ok((jobs, report_rounds)) => Ok((jobs, report_rounds, sources)),
        Err(error) => {
            drop(sources);
            Err(error)
        }
    }
}

/// What the allocator of a service has: its jobs, and of how many rounds it books reports.
fn machine_of(alloc: Global, service: &Service) -> io::Result<(Vec<JobSpec>, ReportRounds)> {
    match resume(alloc, service.line().as_bytes())? {
        Ok(resumption) => {
            let machine = machine_in(alloc, &resumption.core);
            drop(resumption);
            machine
        }
        Err(_) => Err(io::ErrorKind::InvalidData.into()),
    }
}

fn machine_in(alloc: Global, core: &Core) -> io::Result<(Vec<JobSpec>, ReportRounds)> {
    let jobs = copied_jobs(alloc, core)?;
    Ok((jobs, core.report_rounds()))
}

fn copied_jobs(alloc: Global, core: &Core) -> Result<Vec<JobSpec>, AllocError> {
    copies(alloc, core.fleet().jobs())
}

/// The allocator under the jobs of a service, with reports booked of so many rounds, and whether it is: it is as it was where both are
/// its own, and else renewed.
#[tactic(auto, using(crate::proofs::Laters::later_refl))]
fn under<R: Clock + Eprint + Copy, S, F: Device + Drop, A: Archive<F>>(
    rt: &R,
    alloc: Global,
    service: &Service,
    archive: &mut A,
    journal: &mut Journal<F>,
    watch: &mut Watch<S>,
    jobs: Vec<JobSpec>,
    report_rounds: ReportRounds,
    epoch: u64,
    core: Core,
) -> io::Result<(Core, bool)>
    requires { IsOfService F.tells F.contents core journal.old.file }
    ensures later { IfOk result (λ r. IsLater core r.0) }
    ensures file { IfOk result (λ r. IsOfService F.tells F.contents r.0 journal.new.file) }
    ensures stays { IsSome journal.old.file → IsSome journal.new.file }
{
    let is_same = core.report_rounds().count() == report_rounds.count();
    if is_same && are_jobs_of(core.fleet().jobs(), service.jobs()) {
        drop(jobs);
        return Ok((core, true));
    }
    renewed_under(
        rt,
        alloc,
        service,
        archive,
        journal,
        watch,
        jobs,
        report_rounds,
        epoch,
        core,
    )
}

/// The allocator renewed under its own jobs, with reports booked of as many rounds as before.
#[tactic(auto, using(crate::proofs::Laters::later_refl))]
fn renewed<R: Clock + Eprint + Copy, S, F: Device + Drop, A: Archive<F>>(
    rt: &R,
    alloc: Global,
    service: &Service,
    archive: &mut A,
    journal: &mut Journal<F>,
    watch: &mut Watch<S>,
    epoch: u64,
    core: Core,
) -> io::Result<Core>
    requires { IsOfService F.tells F.contents core journal.old.file }
    ensures later { IfOk result (IsLater core) }
    ensures file { IfOk result (λ c. IsOfService F.tells F.contents c journal.new.file) }
    ensures stays { IsSome journal.old.file → IsSome journal.new.file }
{
    let Ok(jobs) = copied_jobs(alloc, &core) else {
        log_warning(rt, "no memory to renew the allocator");
        return Ok(core);
    };
    let report_rounds = core.report_rounds();
    let (core, _) = renewed_under(
        rt,
        alloc,
        service,
        archive,
        journal,
        watch,
        jobs,
        report_rounds,
        epoch,
        core,
    )?;
    Ok(core)
}

/// The allocator renewed under some jobs, with its journal begun anew, in this epoch, where there is one, and whether it is. Where it is not
/// renewed it is as it was.
#[tactic(auto, using(crate::proofs::Laters::renewed_is_later, crate::proofs::Laters::later_refl))]
fn renewed_under<R: Clock + Eprint + Copy, S, F: Device + Drop, A: Archive<F>>(
    rt: &R,
    alloc: Global,
    service: &Service,
    archive: &mut A,
    journal: &mut Journal<F>,
    watch: &mut Watch<S>,
    jobs: Vec<JobSpec>,
    report_rounds: ReportRounds,
    epoch: u64,
    core: Core,
) -> io::Result<(Core, bool)>
    requires { IsOfService F.tells F.contents core journal.old.file }
    ensures later { IfOk result (λ r. IsLater core r.0) }
    ensures file { IfOk result (λ r. IsOfService F.tells F.contents r.0 journal.new.file) }
    ensures stays { IsSome journal.old.file → IsSome journal.new.file }
{
    // (its pairs ascend)
    let _pairs = core.allocation().len();
    match core.renew(jobs, report_rounds) {
        Ok(renewed) => {
            watch.leave_fleet(renewed.forgotten);
            let core = renewed.core;
            journal.epoch = epoch;
            if let Err(error) = begin_journal(rt, alloc, service, archive, journal, &core) {
                drop(core);
                return Err(error);
            }
            log_info(rt, "the allocator is renewed");
            Ok((core, true))
        }
        Err(NotRenewed { core, why }) => {
            log_warning_of(rt, "the allocator is not renewed", &why);
            Ok((core, false))
        }
    }
}

/// Begins the journal of a renewed allocator, where the service has a journal. Where it has no first line or the device fails, nothing is kept
/// any more.
fn begin_journal<R: Clock + Eprint + Copy, F: Device + Drop, A: Archive<F>>(
    rt: &R,
    alloc: Global,
    service: &Service,
    archive: &mut A,
    journal: &mut Journal<F>,
    core: &Core,
) -> io::Result<()>
    requires { IsRenewed core.now }
    ensures file { OnOk result (IsOfService F.tells F.contents core.now journal.new.file) }
    ensures stays { IsSome journal.old.file → IsSome journal.new.file }
{
    let Some(file) = &mut journal.file else {
        return Ok(());
    };
    let first = first_line(
        alloc,
        service.line(),
        journal.epoch,
        journal.names.as_slice(),
        core,
    )?;
    begin_file(rt, archive, file, core, first)
}

/// Begins a journal with the first line of an allocator, and has it in the place of this one.
fn begin_file<R: Clock + Eprint + Copy, F: Device + Drop, A: Archive<F>>(
    rt: &R,
    archive: &mut A,
    file: &mut JournalFile<F>,
    core: &Core,
    first: Option<FirstLine>,
) -> io::Result<()>
    requires { IfSome first (Opens (Some core.now)) }
    ensures { OnOk result (IsOf F.tells F.contents core.now file.new) }
{
    let Some(first) = first else {
        log_error(
            rt,
            "another journal cannot be begun: the configuration has other jobs than the allocator",
        );
        file.break_down();
        return Ok(());
    };
    let begun = archive.begin(&first);
    drop(first);
    match begun {
        Ok(begun) => {
            drop(std::mem::replace(file, JournalFile::begun(begun)));
            Ok(())
        }
        Err(error) => break_down(rt, file, error),
    }
}

/// The first line of the journal of a renewed allocator. It has none under a configuration with other jobs.
fn first_line(
    alloc: Global,
    line: &str,
    epoch: u64,
    names: &[NamedCollector],
    core: &Core,
) -> Result<Option<FirstLine>, AllocError>
    requires { IsRenewed core.now }
    ensures { IfOk result (λ o. IfSome o (Opens (Some core.now))) }
{
    let line = with_epoch(alloc, line.as_bytes(), epoch)?;
    let named = with_names(alloc, line.as_slice(), names);
    drop(line);
    let named = named?;
    FirstLine::renewed(alloc, named.as_slice(), core)
}

/// Nothing is kept any more, unless it was memory that failed.
fn break_down<R: Clock + Eprint + Copy, F>(
    rt: &R,
    file: &mut JournalFile<F>,
    error: io::Error,
) -> io::Result<()>
    ensures { OnOk result (file.new.is_broken ≡ true) }
{
    if error.kind() == io::ErrorKind::OutOfMemory {
        return Err(error);
    }
    log_error_of(rt, "another journal cannot be begun", &error);
    file.break_down();
    Ok(())
}
