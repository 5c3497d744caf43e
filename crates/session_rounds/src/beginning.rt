//! What a session enters before its rounds.
ghost use Rattle.std.specs.Prelude.{◌≡◌, ◌≤◌, [], All, IfErr, OnOk};
ghost use Rattle.session_rounds.specs.Beginnings.{AskedJobs, AskedSource, AskedSources, BooksNothing, asked_count};
ghost use Rattle.session_rounds.specs.Stops.{IsBeginning, IsListed, IsStop};

use crate::entering::{enter, enter_joins, reallocate, static_targets};
use crate::refreshing::{Refresher, last_source};
use crate::stop::SessionStop;
use alloc_desk::{Desk, DeskName, Pass};
use http_get::{RefreshError, Scrape, refresh};
use relabel::Rules;
use sd_documents::Job;
use session::{Session, source_line};
use std::alloc::Global;
use std::sync::Wait;
use std::sync::ledger::Ledger;

/// Has the collectors join, lists the static groups and refreshes each source job by job, and reallocates. A source that is refused
/// has its line; what it listed stays.
pub fn begin<L: Ledger, B: Ledger, N: DeskName, S: Scrape, R: Wait>(
    desk: &Desk<L, B, N>,
    rt: &R,
    alloc: Global,
    session: &Session,
    refresher: &mut Refresher<L, B, N, S>,
    text: &mut Vec<u8>,
) -> Result<(), SessionStop>
    ensures asked { OnOk result (AskedJobs S.may_fetch session.now.config.jobs refresher.old.scrape refresher.new.scrape text.old.items text.new.items) }
    ensures stopped { IfErr result (IsStop N.opening refresher.old.pass refresher.new.pass (IsBeginning session.now) session.now.config.jobs) }
    ensures grown { refresher.old.pass.calls ≤ refresher.new.pass.calls }
    ensures booked { All BooksNothing session.now.joins → refresher.new.pass.booked ≡ refresher.old.pass.booked }
    ensures seat { refresher.new.pass.seat ≡ refresher.old.pass.seat }
{
    enter_joins(desk, rt, &mut refresher.pass, session.joins.as_slice())?;
    for job in session.config.jobs.as_slice() {
        let rules = Rules::read(alloc, job.rules.as_slice())?;
        match list_job(desk, rt, alloc, job, &rules, refresher, text) {
            Ok(()) => drop(rules),
            Err(stop) => {
                drop(rules);
                return Err(stop);
            }
        }
    }
    reallocate(desk, rt, alloc, &mut refresher.pass)
}

/// Lists what a job's sources have.
fn list_job<L: Ledger, B: Ledger, N: DeskName, S: Scrape, R: Wait>(
    desk: &Desk<L, B, N>,
    rt: &R,
    alloc: Global,
    job: &Job,
    rules: &Rules,
    refresher: &mut Refresher<L, B, N, S>,
    text: &mut Vec<u8>,
) -> Result<(), SessionStop>
    ensures asked { OnOk result (AskedSources S.may_fetch job.now rules.now 1 (asked_count job.now) refresher.old.scrape refresher.new.scrape text.old.items text.new.items) }
    ensures stopped { IfErr result (IsStop N.opening refresher.old.pass refresher.new.pass (IsListed job.now rules.now) []) }
    ensures grown { refresher.old.pass.calls ≤ refresher.new.pass.calls }
    ensures booked { refresher.new.pass.booked ≡ refresher.old.pass.booked }
    ensures seat { refresher.new.pass.seat ≡ refresher.old.pass.seat }
{
    let targets = static_targets(alloc, job, rules)?;
    enter(desk, rt, &mut refresher.pass, targets)?;
    for index in 0..last_source(job) {
        list_source(desk, rt, alloc, job, rules, 1 + index, refresher, text)?;
    }
    Ok(())
}

fn list_source<L: Ledger, B: Ledger, N: DeskName, S: Scrape, R: Wait>(
    desk: &Desk<L, B, N>,
    rt: &R,
    alloc: Global,
    job: &Job,
    rules: &Rules,
    source: u32,
    refresher: &mut Refresher<L, B, N, S>,
    text: &mut Vec<u8>,
) -> Result<(), SessionStop>
    ensures asked { OnOk result (AskedSource S.may_fetch job.now rules.now source refresher.old.scrape refresher.new.scrape text.old.items text.new.items) }
    ensures stopped { IfErr result (IsStop N.opening refresher.old.pass refresher.new.pass (IsListed job.now rules.now) []) }
    ensures grown { refresher.old.pass.calls ≤ refresher.new.pass.calls }
    ensures booked { refresher.new.pass.booked ≡ refresher.old.pass.booked }
    ensures seat { refresher.new.pass.seat ≡ refresher.old.pass.seat }
{
    match refresh(alloc, job, rules, source, &mut refresher.scrape) {
        Ok(event) => enter(desk, rt, &mut refresher.pass, event),
        Err(RefreshError::Memory) => Err(SessionStop::Memory),
        Err(refusal) => {
            let line = source_line(alloc, job.name.as_str(), source, refusal.name())?;
            text.extend_from_slice(line.as_bytes())?;
            Ok(())
        }
    }
}
