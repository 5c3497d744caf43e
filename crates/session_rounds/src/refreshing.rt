//! Refreshing the sources while a round runs.
ghost use Rattle.std.specs.Prelude.{◌≡◌, ◌≤◌, [], IfErr};
ghost use Rattle.session_rounds.specs.Beginnings.{asked_count};
ghost use Rattle.session_rounds.specs.Stops.{IsQuietStop};

use crate::entering::reallocate;
use crate::stop::SessionStop;
use alloc_desk::{Desk, DeskName, EnterError, Pass};
use http_get::{RefreshError, Scrape, refresh};
use relabel::Rules;
use sd_documents::Job;
use std::alloc::Global;
use std::sync::Wait;
use std::sync::ledger::Ledger;

/// Who refreshes the sources.
#[derive(Drop)]
pub struct Refresher<L: Ledger, B: Ledger, N: DeskName, S> {
    pub pass: Pass<L, B, N>,
    pub scrape: S,
}

/// Refreshes each source of each job once, and reallocates. A list that is refused stays as it was.
pub(crate) fn renew<L: Ledger, B: Ledger, N: DeskName, S: Scrape, R: Wait>(
    desk: &Desk<L, B, N>,
    rt: &R,
    alloc: Global,
    jobs: &[Job],
    refresher: &mut Refresher<L, B, N, S>,
) -> Result<(), SessionStop>
    ensures stopped { IfErr result (IsQuietStop N.opening jobs.now) }
    ensures grown { refresher.old.pass.calls ≤ refresher.new.pass.calls }
    ensures booked { refresher.new.pass.booked ≡ refresher.old.pass.booked }
    ensures seat { refresher.new.pass.seat ≡ refresher.old.pass.seat }
{
    for job in jobs {
        let rules = Rules::read(alloc, job.rules.as_slice())?;
        match renew_job(desk, rt, alloc, job, &rules, refresher) {
            Ok(()) => drop(rules),
            Err(stop) => {
                drop(rules);
                return Err(stop);
            }
        }
    }
    reallocate(desk, rt, alloc, &mut refresher.pass)
}

fn renew_job<L: Ledger, B: Ledger, N: DeskName, S: Scrape, R: Wait>(
    desk: &Desk<L, B, N>,
    rt: &R,
    alloc: Global,
    job: &Job,
    rules: &Rules,
    refresher: &mut Refresher<L, B, N, S>,
) -> Result<(), SessionStop>
    ensures stopped { IfErr result (IsQuietStop N.opening []) }
    ensures grown { refresher.old.pass.calls ≤ refresher.new.pass.calls }
    ensures booked { refresher.new.pass.booked ≡ refresher.old.pass.booked }
    ensures seat { refresher.new.pass.seat ≡ refresher.old.pass.seat }
{
    for index in 0..last_source(job) {
        renew_source(desk, rt, alloc, job, rules, 1 + index, refresher)?;
    }
    Ok(())
}

/// The number of the last source of a job: source 0 has its static groups, and each further one a URL.
pub(crate) fn last_source(job: &Job) -> u32
    ensures { result ≡ asked_count job.now }
{
    u32::try_from(job.http_urls.len()).unwrap_or(u32::MAX)
}

fn renew_source<L: Ledger, B: Ledger, N: DeskName, S: Scrape, R: Wait>(
    desk: &Desk<L, B, N>,
    rt: &R,
    alloc: Global,
    job: &Job,
    rules: &Rules,
    source: u32,
    refresher: &mut Refresher<L, B, N, S>,
) -> Result<(), SessionStop>
    ensures stopped { IfErr result (IsQuietStop N.opening []) }
    ensures grown { refresher.old.pass.calls ≤ refresher.new.pass.calls }
    ensures booked { refresher.new.pass.booked ≡ refresher.old.pass.booked }
    ensures seat { refresher.new.pass.seat ≡ refresher.old.pass.seat }
{
    match refresh(alloc, job, rules, source, &mut refresher.scrape) {
        Ok(event) => match desk.submit(rt, &mut refresher.pass, event) {
            Ok(receipt) => {
                drop(receipt);
                Ok(())
            }
            Err(EnterError::JournalFull) => Err(SessionStop::JournalFull),
            Err(EnterError::Memory) => Err(SessionStop::Memory),
        },
        Err(RefreshError::Memory) => Err(SessionStop::Memory),
        Err(_) => Ok(()),
    }
}
