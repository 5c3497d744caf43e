//! One visit of a turn: a target is scraped and reported.
ghost use Rattle.std.specs.Prelude.{◌≡◌, ◌+◌, ◌<◌, Option, Some, IfOk, OnOk, OnErr, Err};
ghost use Rattle.alloc_desk.specs.Reached.{IsFull, Reached};
ghost use Rattle.alloc_desk.specs.declared.limits.TheConstants.{MOST_ENTRIES};
ghost use Rattle.collector_pool.specs.Fetches.{Fetch, IsStep};
ghost use Rattle.collector_pool.specs.Visits.{IsUnreported, Visited};

use crate::gate::Gate;
use crate::tally::{Tally, tally_of};
use crate::target::scrape_target;
use alloc_desk::{Desk, DeskName, EnterError, Pass};
use allocation_core::{CollectorId, Event, Report, TargetId};
use fleet_events::{AllocationNumber, Round};
use http_get::Scrape;
use sd_documents::Job;
use std::alloc::Global;
use std::sync::Wait;
use std::sync::ledger::Ledger;

/// By what a collector scrapes and reports.
#[derive(Clone, Copy)]
pub(crate) struct Taken {
    pub(crate) collector: CollectorId,
    pub(crate) allocation: AllocationNumber,
    pub(crate) round: Round,
}

/// Scrapes one target and reports it.
pub(crate) fn visit<L: Ledger, B: Ledger, N: DeskName, S: Scrape, G: Gate, R: Wait>(
    desk: &Desk<L, B, N>,
    rt: &R,
    alloc: Global,
    pass: &mut Pass<L, B, N>,
    jobs: &[Job],
    taken: Taken,
    target: TargetId,
    scrape: &mut S,
    gate: &G,
) -> Result<Tally, EnterError>
    ensures visited { IfOk result (λ tally. Visited S.may_fetch N.opening pass.old pass.new jobs.now taken.collector taken.allocation taken.round target scrape.old scrape.new tally) }
    ensures room { OnOk result (pass.old.calls < MOST_ENTRIES) }
    ensures seat { pass.new.seat ≡ pass.old.seat }
    ensures unreported { OnErr result ((fetched : Option Fetch) × IsStep S.may_fetch scrape.old fetched scrape.new × IsUnreported N.opening pass.old jobs.now (Some target) fetched) }
    ensures full { result ≡ Err EnterError.JournalFull → Reached N.opening pass.new IsFull }
    ensures err { OnErr result (pass.new ≡ pass.old) }
{
    let scraped = scrape_target(
        desk,
        rt,
        alloc,
        pass,
        jobs,
        taken.collector,
        target,
        scrape,
        gate,
    );
    let Ok(outcome) = scraped else {
        return Err(EnterError::Memory);
    };
    let report = Report {
        collector: taken.collector,
        allocation: taken.allocation,
        target,
        round: taken.round,
        outcome,
    };
    let receipt = desk.submit(rt, pass, Event::Report(report))?;
    let tally = tally_of(&receipt.answer);
    drop(receipt);
    Ok(tally)
}
