//! The allocator that a journal leads to, under the jobs of a configuration.
ghost use Rattle.std.specs.Prelude.{◌≡◌, IfOk, Ok, Some, map};
ghost use Rattle.durable_journal.specs.Beginnings.{OpensRenewed};
ghost use Rattle.replay_lines.specs.Configurations.{spec_of};
ghost use Rattle.replay_lines.specs.Resumes.{resumed as resumed_text, resumption_at};
ghost use Rattle.sd_documents.specs.Config.{job_data};
ghost use Rattle.journal_files.specs.declared.reading.Next.TheVariants.{Begins};
ghost use Rattle.journal_files.specs.Starting.{BeginsAnew, GoesBehind, IsConfigured, IsLaterEpoch, IsLedOn, IsMachine, IsRenewed, RenewsUnder, ReplacesWith, Starts, StartsIn, asked_by, epoch_at, has_these};

use crate::guarding::{altered, no_journal, too_long};
use crate::names::{NamedCollector, names_in, with_names};
use crate::rounds::round_age;
use allocation_core::{Core, JobSpec, NotRenewed, RenewalError, ReportRounds};
use command_faults::Fault;
use durable_journal::{FirstLine, Recovered, epoch_of, recover, with_epoch};
use lists::copies;
use replay_lines::{Damage, Resumption, are_jobs_of, resume};
use sd_documents::Job;
use sealed_lines::{Chain, first_line};
use std::alloc::{AllocError, Global};
use std::io;
use std::io::Read;

/// An allocator to begin with, and its journal.
#[derive(Drop)]
pub struct Start {
    pub core: Core,
    pub past: Past,
    pub journal: Journal,
}

/// A journal that was read.
#[derive(Drop)]
pub struct Journal {
    /// How many bytes its whole lines have.
    pub whole: u64,
    /// The digest of the last of them, where they have digests.
    pub chain: Option<Chain>,
    /// How many bytes of a torn line follow them.
    pub torn: usize,
    pub next: Next,
}

/// What is to become of a journal.
#[derive(Drop)]
pub enum Next {
    /// It has no line, and begins with this one.
    Begins(FirstLine),
    /// It goes on behind so many events.
    GoesOn(u64),
    /// Another one begins with this line in its place.
    IsReplaced(FirstLine),
}

/// What a journal is to go on with.
#[derive(Clone, Copy)]
pub struct Wanted<'a> {
    /// The document of the configuration, as one line.
    pub line: &'a str,
    pub jobs: &'a [Job],
    /// The epoch of a journal that begins now, where there is none before it.
    pub epoch: u64,
    /// How long a round is, in milliseconds.
    pub round: u64,
}

/// What a journal tells beside its allocator.
#[derive(Drop)]
pub struct Past {
    pub epoch: u64,
    /// The names that its collectors have or had.
    pub names: Vec<NamedCollector>,
}

/// An allocator, what its journal tells beside it, and what is to become of that journal.
#[derive(Drop)]
struct Begun {
    core: Core,
    past: Past,
    next: Next,
}

/// Reads the journal at a path to its end, and changes nothing of it.
pub fn read_journal<F: Read>(
    alloc: Global,
    path: &str,
    file: &mut F,
    wanted: Wanted<'_>,
) -> Result<Start, Fault>
    ensures { IfOk result (StartsIn (asked_by wanted.entry) (F.remaining file.old)) }
{
    match recover(alloc, file)? {
        Recovered::Found {
            lines,
            chain,
            whole,
            torn,
        } => match start_over(alloc, path, lines.as_slice(), wanted) {
            Ok(begun) => Ok(start_of(begun, chain, whole as u64, torn)),
            Err(fault) => Err(fault),
        },
        Recovered::Altered { line } => Err(altered(alloc, path, line)),
        Recovered::Other => Err(no_journal(alloc, path)),
        Recovered::TooLong => Err(too_long(alloc, path)),
    }
}

/// What begins of a journal of so many whole bytes.
fn start_of(begun: Begun, chain: Option<Chain>, whole: u64, torn: usize) -> Start
    ensures { result ≡ record { core = begun.core; past = begun.past; journal = record { whole = whole; chain = chain; torn = torn; next = begun.next } } }
{
    let Begun { core, past, next } = begun;
    Start {
        core,
        past,
        journal: Journal {
            whole,
            chain,
            torn,
            next,
        },
    }
}

/// The allocator that the lines of the journal at a path lead to, under the jobs of a configuration. Where there are no lines it is that of
/// the configuration's line; where it has other jobs, or books reports of another number of rounds, it is renewed.
fn start_over(alloc: Global, path: &str, lines: &[u8], wanted: Wanted<'_>) -> Result<Begun, Fault>
    ensures { IfOk result (λ b. Starts (asked_by wanted.entry) lines.now b.core b.past.epoch b.next) }
{
    if lines.is_empty() {
        return start_anew(alloc, wanted);
    }
    match resumed(alloc, lines, path) {
        Ok(Resumption { core, events }) => go_on(alloc, path, lines, wanted, core, events),
        Err(fault) => Err(fault),
    }
}

/// The allocator that lines with so many events lead to, under the jobs of a configuration.
fn go_on(
    alloc: Global,
    path: &str,
    lines: &[u8],
    wanted: Wanted<'_>,
    core: Core,
    events: u64,
) -> Result<Begun, Fault>
    requires { resumed_text lines.now ≡ Ok (resumption_at core events) }
    ensures { IfOk result (λ b. IsLedOn (asked_by wanted.entry) lines.now b.core b.past.epoch b.next) }
{
    match past_of(alloc, lines, &core) {
        Ok(past) => start_behind(alloc, path, wanted, core, past, events),
        Err(error) => {
            drop(core);
            Err(error.into())
        }
    }
}

/// The allocator that goes on behind so many events where it is as the configuration wants it, and else is renewed.
fn start_behind(
    alloc: Global,
    path: &str,
    wanted: Wanted<'_>,
    core: Core,
    past: Past,
    events: u64,
) -> Result<Begun, Fault>
    ensures { IfOk result (λ b. GoesBehind (asked_by wanted.entry) core past.epoch events b.core b.past.epoch b.next) }
{
    match machine_in(alloc, wanted.line) {
        Ok((jobs, report_rounds)) => {
            if has_these(&core, wanted.jobs, report_rounds) {
                drop(jobs);
                let next = Next::GoesOn(events);
                return Ok(Begun { core, past, next });
            }
            start_renewed(alloc, path, wanted, core, past, jobs, report_rounds)
        }
        Err(fault) => {
            drop((core, past));
            Err(fault)
        }
    }
}

/// Whether an allocator has these jobs and books reports of so many rounds.
fn has_these(core: &Core, jobs: &[Job], report_rounds: ReportRounds) -> bool
    ensures { result ≡ has_these core.now (map spec_of (map job_data jobs.now)) report_rounds }
{
    core.report_rounds().count() == report_rounds.count() && are_jobs_of(core.fleet().jobs(), jobs)
}

/// What the lines of a journal tell beside their allocator.
fn past_of(alloc: Global, lines: &[u8], core: &Core) -> Result<Past, AllocError>
    ensures { IfOk result (λ p. p.epoch ≡ epoch_at lines.now) }
{
    let epoch = last_epoch(alloc, lines)?;
    let names = names_in(alloc, lines, core)?;
    Ok(Past { epoch, names })
}

/// The epoch of the journal of these lines: 0 where it has none.
fn last_epoch(alloc: Global, lines: &[u8]) -> Result<u64, AllocError>
    ensures { IfOk result (λ e. e ≡ epoch_at lines.now) }
{
    let (line, _others) = first_line(lines);
    Ok(epoch_of(alloc, line)?.unwrap_or(0))
}

/// The allocator of a configuration's line.
pub(crate) fn configured(alloc: Global, line: &[u8]) -> Result<Core, Fault>
    ensures { IfOk result (IsConfigured line.now) }
{
    Ok(resumed(alloc, line, "the configuration")?.core)
}

/// The allocator of a configuration's line with the epoch, whose journal is to begin.
fn start_anew(alloc: Global, wanted: Wanted<'_>) -> Result<Begun, Fault>
    ensures { IfOk result (λ b. BeginsAnew (asked_by wanted.entry) b.core b.past.epoch b.next) }
{
    let line = with_epoch(alloc, wanted.line.as_bytes(), wanted.epoch)?;
    let first = given(FirstLine::configured(alloc, line.as_slice())?)?;
    match configured(alloc, line.as_slice()) {
        Ok(core) => Ok(begun_anew(alloc, wanted.epoch, first, core)),
        Err(fault) => {
            drop(first);
            Err(fault)
        }
    }
}

fn begun_anew(alloc: Global, epoch: u64, first: FirstLine, core: Core) -> Begun
    ensures core { result.core ≡ core }
    ensures epoch { result.past.epoch ≡ epoch }
    ensures next { result.next ≡ Begins first }
{
    let names = Vec::new(alloc);
    Begun {
        core,
        past: Past { epoch, names },
        next: Next::Begins(first),
    }
}

/// The allocator renewed under these jobs, with reports booked of so many rounds.
fn start_renewed(
    alloc: Global,
    path: &str,
    wanted: Wanted<'_>,
    core: Core,
    past: Past,
    jobs: Vec<JobSpec>,
    report_rounds: ReportRounds,
) -> Result<Begun, Fault>
    ensures { IfOk result (λ b. RenewsUnder core past.epoch jobs.items report_rounds b.core b.past.epoch b.next) }
{
    // (its pairs ascend)
    let _pairs = core.allocation().len();
    match core.renew(jobs, report_rounds) {
        Ok(renewed) => {
            drop(renewed.forgotten);
            replaced(alloc, wanted, past, renewed.core)
        }
        Err(NotRenewed { core, why }) => {
            drop((core, past));
            Err(not_renewed(alloc, path, why))
        }
    }
}

/// What the allocator of a configuration's line has: its jobs, and of how many rounds it books reports.
fn machine_in(alloc: Global, line: &str) -> Result<(Vec<JobSpec>, ReportRounds), Fault>
    ensures { IfOk result (λ r. IsMachine line.now r.0.items r.1) }
{
    let core = configured(alloc, line.as_bytes())?;
    let jobs = copies(alloc, core.fleet().jobs());
    let report_rounds = core.report_rounds();
    drop(core);
    Ok((jobs?, report_rounds))
}

/// The renewed allocator, whose journal is to begin in the place of the last one.
fn replaced(alloc: Global, wanted: Wanted<'_>, past: Past, core: Core) -> Result<Begun, Fault>
    requires { IsRenewed core }
    ensures { IfOk result (λ b. ReplacesWith core past.epoch b.core b.past.epoch b.next) }
{
    let epoch = epoch_behind(wanted, past.epoch);
    match renewed_line(alloc, wanted.line, epoch, past.names.as_slice(), &core) {
        Ok(first) => Ok(Begun {
            core,
            past: Past {
                epoch,
                names: past.names,
            },
            next: Next::IsReplaced(first),
        }),
        Err(fault) => {
            drop((core, past));
            Err(fault)
        }
    }
}

/// The epoch behind another: when the open round began, or the next number where that is not later.
fn epoch_behind(wanted: Wanted<'_>, last: u64) -> u64
    ensures { IsLaterEpoch last result }
{
    let age = round_age(last, wanted.epoch, wanted.round);
    wanted.epoch.saturating_sub(age).max(last.saturating_add(1))
}

/// The first line of the journal of a renewed allocator.
fn renewed_line(
    alloc: Global,
    line: &str,
    epoch: u64,
    names: &[NamedCollector],
    core: &Core,
) -> Result<FirstLine, Fault>
    ensures { IfOk result (OpensRenewed core.now) }
{
    let line = with_epoch(alloc, line.as_bytes(), epoch)?;
    let line = with_names(alloc, line.as_slice(), names)?;
    given(FirstLine::renewed(alloc, line.as_slice(), core)?)
}

/// The first line, if a document has one, as that of a configuration has.
fn given(line: Option<FirstLine>) -> Result<FirstLine, Fault>
    ensures { IfOk result (λ first. line ≡ Some first) }
{
    match line {
        Some(line) => Ok(line),
        None => Err(Fault::Machine(io::ErrorKind::InvalidData.into())),
    }
}

/// Why a service does not begin whose allocator cannot be renewed.
fn not_renewed(alloc: Global, path: &str, why: RenewalError) -> Fault {
    if why == RenewalError::Memory {
        return AllocError.into();
    }
    let line = format!(in alloc; "{path}: not renewed under the jobs of the configuration: {why}");
    match line {
        Ok(line) => Fault::Told(line),
        Err(error) => error.into(),
    }
}

fn resumed(alloc: Global, lines: &[u8], path: &str) -> Result<Resumption, Fault>
    ensures { IfOk result (λ r. resumed_text lines.now ≡ Ok r) }
{
    match resume(alloc, lines)? {
        Ok(resumption) => Ok(resumption),
        Err(Damage { line }) => Err(Fault::Told(format!(in alloc;
            "{path}: line {line} is damaged"
        )?)),
    }
}
