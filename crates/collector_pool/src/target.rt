//! One target of a turn, without the lock.
ghost use Rattle.std.specs.Prelude.{◌≡◌, ◌≢◌, Option, Err, IfOk};
ghost use Rattle.alloc_desk.specs.Reached.{Reached};
ghost use Rattle.collector_pool.specs.Fetches.{Fetch, IsStep, asked_in, reply_outcome, result_outcome};
ghost use Rattle.collector_pool.specs.Visits.{CameTo};

use crate::gate::Gate;
use alloc_desk::{Desk, DeskName, Pass};
use allocation_core::{CollectorId, Outcome, TargetId};
use http_get::{FetchFault, Get, Reply, Scrape, get_in};
use scrape_books::count_samples;
use sd_documents::Job;
use std::alloc::{AllocError, Global};
use std::sync::Wait;
use std::sync::ledger::Ledger;

/// What a target is found to be.
pub(crate) fn scrape_target<L: Ledger, B: Ledger, N: DeskName, S: Scrape, G: Gate, R: Wait>(
    desk: &Desk<L, B, N>,
    rt: &R,
    alloc: Global,
    pass: &mut Pass<L, B, N>,
    jobs: &[Job],
    collector: CollectorId,
    target: TargetId,
    scrape: &mut S,
    gate: &G,
) -> Result<Outcome, AllocError>
    ensures same { pass.new ≡ pass.old }
    ensures scraped { (fetched : Option Fetch) × IsStep S.may_fetch scrape.old fetched scrape.new × CameTo N.opening pass.old jobs.now target fetched result }
{
    let Some(get) = get_for(desk, rt, alloc, pass, jobs, target)? else {
        return Ok(Outcome::Down);
    };
    gate.before(collector, target);
    let fetched = scrape.fetch(&get);
    gate.after(collector, target);
    let outcome = found(&fetched);
    drop((fetched, get));
    outcome
}

/// How a target is asked, where it is known and can be asked.
fn get_for<L: Ledger, B: Ledger, N: DeskName, R: Wait>(
    desk: &Desk<L, B, N>,
    rt: &R,
    alloc: Global,
    pass: &mut Pass<L, B, N>,
    jobs: &[Job],
    target: TargetId,
) -> Result<Option<Get>, AllocError>
    ensures same { pass.new ≡ pass.old }
    ensures asked { IfOk result (λ get. Reached N.opening pass.old (λ h. get ≡ asked_in h.state jobs.now target)) }
{
    match desk.target(rt, pass, target)? {
        Some((job, target)) => {
            let get = get_in(alloc, jobs, job, &target);
            drop(target);
            get
        }
        None => Ok(None),
    }
}

/// What a fetch shows of its target, or want of memory.
fn found(fetched: &Result<Reply, FetchFault>) -> Result<Outcome, AllocError>
    ensures { IfOk result (λ outcome. (outcome ≡ result_outcome fetched.now) × (fetched.now ≢ Err FetchFault.Memory)) }
{
    match fetched {
        Ok(reply) => Ok(outcome_of(reply)),
        Err(FetchFault::Device | FetchFault::TooLong) => Ok(Outcome::Down),
        Err(FetchFault::Memory) => Err(AllocError),
    }
}

/// Up with its samples where the status is 200, else Down.
fn outcome_of(reply: &Reply) -> Outcome
    ensures { result ≡ reply_outcome reply.now }
{
    if reply.status == 200 {
        Outcome::Up(count_samples(reply.body.as_slice()))
    } else {
        Outcome::Down
    }
}
