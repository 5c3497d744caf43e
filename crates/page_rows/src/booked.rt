//! What was booked in a round, by job and collector.
ghost use Rattle.std.specs.Prelude.{◌≡◌, ◌==◌, ℕ, filter, map, IfOk};
ghost use Rattle.scrape_books.specs.declared.report.Entry.{Entry};
ghost use Rattle.fleet.specs.declared.job.JobSpec.{JobSpec};
ghost use Rattle.sd_routes.specs.declared.books_row.JobBooks.{JobBooks};
ghost use Rattle.page_rows.specs.Booked.{counted, has_up_to, is_told, last_over, round_told, AreOfJobs, IsBooks};

use crate::figures::is_taken;
use allocation_core::Core;
use fleet_events::{CollectorId, Round, TargetId};
use lists::{List, Plain, Text};
use scrape_books::{Entry, Outcome};
use sd_routes::{BookCounts, BooksRow, CollectorBooks, JobBooks};
use std::alloc::{AllocError, Global};

/// What a collector reported of a job.
#[derive(Clone, Copy)]
struct Tally {
    id: CollectorId,
    counts: BookCounts,
}

/// What collectors reported of each job, in order of their numbers.
#[derive(Drop)]
struct Tallies {
    /// The counts of who reported nothing, and of whom nothing is missing.
    nothing: BookCounts,
    jobs: Vec<Vec<Tally>>,
}

/// What was booked in the round of a number, or in the last one that is over. None where the books have no such round.
pub fn books_asked(
    alloc: Global,
    core: &Core,
    asked: Option<Round>,
) -> Result<Option<BooksRow>, AllocError>
    ensures { IfOk result (IsBooks core.now asked) }
{
    match round_told(core.round(), core.books().entries(), asked) {
        Some(round) => Ok(Some(books_told(alloc, core, round)?)),
        None => Ok(None),
    }
}

/// The round that is told of, if one is that is over. None where the one that is asked for is not to be told of.
fn round_told(
    open_round: Round,
    entries: &[(TargetId, Entry)],
    asked: Option<Round>,
) -> Option<Option<Round>>
    ensures { result ≡ round_told open_round entries.now asked }
{
    match asked {
        None => Some(last_over(open_round, entries)),
        Some(round) if is_told(open_round, entries, round) => Some(Some(round)),
        Some(_) => None,
    }
}

/// The last round that is over, where the books have it.
fn last_over(open_round: Round, entries: &[(TargetId, Entry)]) -> Option<Round>
    ensures { result ≡ last_over open_round entries.now }
{
    if open_round > 0 && has_up_to(entries, open_round - 1) {
        return Some(open_round - 1);
    }
    None
}

/// Whether a round is the open one, or is over and not before the first of which the books have a report.
fn is_told(open_round: Round, entries: &[(TargetId, Entry)], round: Round) -> bool
    ensures { result ≡ is_told open_round entries.now round }
{
    round == open_round || (round < open_round && has_up_to(entries, round))
}

/// Whether a report of a round is booked, or of one before.
fn has_up_to(entries: &[(TargetId, Entry)], round: Round) -> bool
    ensures { result ≡ has_up_to round entries.now }
{
    for entry in entries {
        if entry.1.round <= round {
            return true;
        }
    }
    false
}

fn books_told(alloc: Global, core: &Core, round: Option<Round>) -> Result<BooksRow, AllocError>
    ensures { IfOk result (λ row. (row.round ≡ round) × ((row.open_round ≡ core.now.round) × AreOfJobs core.now.fleet.jobs round row.jobs)) }
{
    match told_jobs(alloc, core, round) {
        Ok(jobs) => Ok(BooksRow {
            open_round: core.round(),
            round,
            jobs,
        }),
        Err(error) => Err(error),
    }
}

/// The jobs of the round that is told of. None where no round is.
fn told_jobs(alloc: Global, core: &Core, round: Option<Round>) -> Result<List<JobBooks>, AllocError>
    ensures { IfOk result (AreOfJobs core.now.fleet.jobs round) }
{
    match round {
        Some(round) => job_books(alloc, core, round),
        None => Ok(List::new(alloc)),
    }
}

/// What was booked of each job in a round: what each collector reported of it that reported of it or holds a live target of it.
pub fn job_books(alloc: Global, core: &Core, round: Round) -> Result<List<JobBooks>, AllocError>
    ensures { IfOk result (λ rows. map (λ (row : JobBooks). row.job) rows ≡ map (λ (job : JobSpec). job.name) core.now.fleet.jobs) }
{
    let nothing = nothing_of(core.round(), round);
    let tallies = tallies_of(alloc, core, round, nothing)?;
    let rows = rows_of(alloc, core, nothing, tallies.as_slice());
    drop(tallies);
    rows
}

/// What is counted before anything is. What is missing is known of the open round and of the last one that is over: lists are told as they are now.
fn nothing_of(open_round: Round, round: Round) -> BookCounts {
    let missing = if open_round.saturating_sub(round) <= 1 {
        Some(0)
    } else {
        None
    };
    BookCounts {
        up: 0,
        down: 0,
        samples: 0,
        missing,
    }
}

fn tallies_of(
    alloc: Global,
    core: &Core,
    round: Round,
    nothing: BookCounts,
) -> Result<Vec<Vec<Tally>>, AllocError> {
    let reports = reports_of(alloc, core.books().entries(), round)?;
    let tallies = tallies_by(alloc, core, reports.as_slice(), nothing);
    drop(reports);
    tallies
}

fn tallies_by(
    alloc: Global,
    core: &Core,
    reports: &[(TargetId, Entry)],
    nothing: BookCounts,
) -> Result<Vec<Vec<Tally>>, AllocError> {
    let jobs = no_tallies(alloc, core.fleet().jobs().len())?;
    let mut tallies = Tallies { nothing, jobs };
    match tallies.count(alloc, core, reports) {
        Ok(()) => Ok(tallies.jobs),
        Err(refused) => {
            drop(tallies);
            Err(refused)
        }
    }
}

fn no_tallies(alloc: Global, count: usize) -> Result<Vec<Vec<Tally>>, AllocError> {
    let mut jobs = Vec::with_capacity(alloc, count)?;
    match push_no_tallies(&mut jobs, alloc, count) {
        Ok(()) => Ok(jobs),
        Err(refused) => {
            drop(jobs);
            Err(refused)
        }
    }
}

fn push_no_tallies(
    jobs: &mut Vec<Vec<Tally>>,
    alloc: Global,
    count: usize,
) -> Result<(), AllocError> {
    for _ in 0..count {
        jobs.push(Vec::new(alloc))?;
    }
    Ok(())
}

/// The reports of a round beside their targets. Entries need not stand in order of rounds, so all are looked at.
fn reports_of(
    alloc: Global,
    entries: &[(TargetId, Entry)],
    round: Round,
) -> Result<List<(TargetId, Entry)>, AllocError>
    ensures { IfOk result (λ reports. reports ≡ filter (λ (p : ℕ × Entry). p.1.round == round) entries.now) }
{
    let mut reports = List::new(alloc);
    for entry in entries {
        if entry.1.round == round {
            reports.push(*entry)?;
        }
    }
    Ok(reports)
}

impl Tallies {
    fn count(
        &mut self,
        alloc: Global,
        core: &Core,
        reports: &[(TargetId, Entry)],
    ) -> Result<(), AllocError> {
        self.count_reports(core, reports)?;
        self.count_held(alloc, core, reports)
    }

    fn count_reports(
        &mut self,
        core: &Core,
        reports: &[(TargetId, Entry)],
    ) -> Result<(), AllocError> {
        for report in reports {
            if let Some(known) = core.fleet().known().get(report.0 as usize) {
                self.count_report(known.job, report.1)?;
            }
        }
        Ok(())
    }

    fn count_report(&mut self, job: usize, report: Entry) -> Result<(), AllocError> {
        if let Some(rows) = self.jobs.get_mut(job) {
            if let Some(tally) = tally_of(rows, report.collector, self.nothing)? {
                tally.counts = counted(tally.counts, report.outcome);
            }
        }
        Ok(())
    }

    /// Counts what is missing of the live targets that live collectors hold.
    fn count_held(
        &mut self,
        alloc: Global,
        core: &Core,
        reports: &[(TargetId, Entry)],
    ) -> Result<(), AllocError> {
        let live = core.fleet().live_marks()?;
        let reported = reported_marks(alloc, core.fleet().known().len(), reports)?;
        for (target, holder) in core.allocation() {
            if is_marked(live.as_slice(), *target) && core.fleet().is_joined(*holder) {
                let is_reported = is_marked(reported.as_slice(), *target);
                self.count_target(core, *target, *holder, is_reported)?;
            }
        }
        Ok(())
    }

    /// A live target is held by a live collector, and is missing where its last list has it and nothing was reported of it.
    fn count_target(
        &mut self,
        core: &Core,
        target: TargetId,
        holder: CollectorId,
        is_reported: bool,
    ) -> Result<(), AllocError> {
        let Some(known) = core.fleet().known().get(target as usize) else {
            return Ok(());
        };
        let is_missing = !is_reported && is_taken(core, known.job, target, holder);
        self.count_share(known.job, holder, is_missing)
    }

    fn count_share(
        &mut self,
        job: usize,
        holder: CollectorId,
        is_missing: bool,
    ) -> Result<(), AllocError> {
        if let Some(rows) = self.jobs.get_mut(job) {
            if let Some(tally) = tally_of(rows, holder, self.nothing)? {
                if is_missing {
                    tally.counts = with_missing(tally.counts);
                }
            }
        }
        Ok(())
    }
}

/// What is counted of a collector, with a row for it where there was none.
fn tally_of(
    rows: &mut Vec<Tally>,
    id: CollectorId,
    nothing: BookCounts,
) -> Result<Option<&mut Tally>, AllocError> {
    match rows.binary_search_by(|row| row.id.cmp(&id)) {
        Ok(place) => Ok(rows.get_mut(place)),
        Err(place) => {
            insert_at(
                rows,
                place,
                Tally {
                    id,
                    counts: nothing,
                },
            )?;
            Ok(rows.get_mut(place))
        }
    }
}

fn insert_at(rows: &mut Vec<Tally>, place: usize, row: Tally) -> Result<(), AllocError> {
    if place <= rows.len() {
        rows.insert(place, row)?;
    }
    Ok(())
}

/// The counts with one more report. A target is booked once a round at most, so sums of one round do not come near the greatest number.
fn counted(counts: BookCounts, outcome: Outcome) -> BookCounts
    ensures { result ≡ counted counts outcome }
{
    match outcome {
        Outcome::Up(samples) => BookCounts {
            up: counts.up.saturating_add(1),
            down: counts.down,
            samples: counts.samples.saturating_add(u64::from(samples)),
            missing: counts.missing,
        },
        Outcome::Down => BookCounts {
            up: counts.up,
            down: counts.down.saturating_add(1),
            samples: counts.samples,
            missing: counts.missing,
        },
    }
}

/// The counts with one more target that is missing, where these are counted.
fn with_missing(counts: BookCounts) -> BookCounts {
    let missing = match counts.missing {
        Some(missing) => Some(missing.saturating_add(1)),
        None => None,
    };
    BookCounts {
        up: counts.up,
        down: counts.down,
        samples: counts.samples,
        missing,
    }
}

/// Which targets were reported of, by their numbers.
fn reported_marks(
    alloc: Global,
    known: usize,
    reports: &[(TargetId, Entry)],
) -> Result<Vec<bool>, AllocError> {
    let mut marks = Vec::new(alloc);
    marks.resize(known, false)?;
    for report in reports {
        mark(marks.as_mut_slice(), report.0);
    }
    Ok(marks)
}

fn mark(marks: &mut [bool], target: TargetId) {
    if let Some(mark) = marks.get_mut(target as usize) {
        *mark = true;
    }
}

fn is_marked(marks: &[bool], target: TargetId) -> bool {
    marks.get(target as usize) == Some(&true)
}

fn rows_of(
    alloc: Global,
    core: &Core,
    nothing: BookCounts,
    tallies: &[Vec<Tally>],
) -> Result<List<JobBooks>, AllocError>
    ensures { IfOk result (λ rows. map (λ (row : JobBooks). row.job) rows ≡ map (λ (job : JobSpec). job.name) core.now.fleet.jobs) }
{
    let jobs = core.fleet().jobs();
    let mut rows = List::new(alloc);
    for place in 0..jobs.len() {
        rows.push(row_of(
            alloc,
            core,
            &jobs[place].name,
            nothing,
            tallies_at(tallies, place),
        )?)?;
    }
    Ok(rows)
}

/// What is counted of the job at a place.
fn tallies_at(tallies: &[Vec<Tally>], place: usize) -> &[Tally] {
    match tallies.get(place) {
        Some(rows) => rows.as_slice(),
        None => &[],
    }
}

fn row_of(
    alloc: Global,
    core: &Core,
    name: &Text,
    nothing: BookCounts,
    tallies: &[Tally],
) -> Result<JobBooks, AllocError>
    ensures { IfOk result (λ row. row.job ≡ name.now) }
{
    let job = name.copy()?;
    let collectors = collectors_of(alloc, core, tallies)?;
    Ok(JobBooks {
        job,
        counts: sum_of(nothing, tallies),
        collectors,
    })
}

fn sum_of(nothing: BookCounts, tallies: &[Tally]) -> BookCounts {
    let mut sum = nothing;
    for tally in tallies {
        sum = together(sum, tally.counts);
    }
    sum
}

fn together(one: BookCounts, other: BookCounts) -> BookCounts {
    let missing = match (one.missing, other.missing) {
        (Some(one), Some(other)) => Some(one.saturating_add(other)),
        _ => None,
    };
    BookCounts {
        up: one.up.saturating_add(other.up),
        down: one.down.saturating_add(other.down),
        samples: one.samples.saturating_add(other.samples),
        missing,
    }
}

fn collectors_of(
    alloc: Global,
    core: &Core,
    tallies: &[Tally],
) -> Result<List<CollectorBooks>, AllocError> {
    let mut rows = List::new(alloc);
    match push_collectors(&mut rows, alloc, core, tallies) {
        Ok(()) => Ok(rows),
        Err(refused) => {
            drop(rows);
            Err(refused)
        }
    }
}

fn push_collectors(
    rows: &mut List<CollectorBooks>,
    alloc: Global,
    core: &Core,
    tallies: &[Tally],
) -> Result<(), AllocError> {
    for tally in tallies {
        let name = name_of(alloc, core, tally.id)?;
        rows.push(CollectorBooks {
            id: tally.id,
            name,
            counts: tally.counts,
        })?;
    }
    Ok(())
}

/// The name of a collector, if it is live.
fn name_of(alloc: Global, core: &Core, id: CollectorId) -> Result<Option<Text>, AllocError> {
    let collectors = core.collectors();
    match collectors.binary_search_by(|collector| collector.id.cmp(&id)) {
        Ok(place) => match collectors.get(place) {
            Some(collector) => Ok(Some(Text::from_str(alloc, collector.name.as_str())?)),
            None => Ok(None),
        },
        Err(_) => Ok(None),
    }
}
