//! A turn of many collectors at once.
ghost use Rattle.std.specs.Prelude.{◌≡◌, ◌<◌, ℕ, length, slice_index_or};
ghost use Rattle.collector_pool.specs.Turns.{DidTurn};

use crate::gate::Gate;
use crate::turn::collector_turn;
use crate::worker::Worker;
use alloc_desk::{Desk, DeskName};
use http_get::Scrape;
use sd_documents::Job;
use std::alloc::Global;
use std::sync::Wait;
use std::sync::ledger::Ledger;
use std::thread;
use std::thread::Threads;

/// One turn of each worker, each on a thread of its own, or one after the other where no thread can be started. It takes no
/// memory of its own.
pub fn run_round<
    R: Threads + Wait + Sync,
    L: Ledger + Send + Sync,
    B: Ledger + Send + Sync,
    N: DeskName + Send + Sync,
    S: Scrape + Send,
    G: Gate + Sync,
>(
    desk: &Desk<L, B, N>,
    rt: &R,
    alloc: Global,
    jobs: &[Job],
    workers: &mut [Worker<L, B, N, S>],
    gate: &G,
)
    ensures turned { (i : ℕ) (d : _) → i < length workers.old
        → DidTurn S.may_fetch N.opening jobs.now (slice_index_or workers.old i d).id (slice_index_or workers.old i d).pass (slice_index_or workers.new i d).pass
        (slice_index_or workers.old i d).scrape (slice_index_or workers.new i d).scrape (slice_index_or workers.new i d).turn }
    ensures ids { (i : ℕ) (d : _) → i < length workers.old → (slice_index_or workers.new i d).id ≡ (slice_index_or workers.old i d).id }
{
    let threads = workers.len();
    if threads == 0 {
        return;
    }
    thread::for_each_mut(
        rt,
        workers,
        threads,
        &|_, worker| turn_of(desk, rt, alloc, jobs, worker, gate),
    );
}

fn turn_of<L: Ledger, B: Ledger, N: DeskName, S: Scrape, G: Gate, R: Wait>(
    desk: &Desk<L, B, N>,
    rt: &R,
    alloc: Global,
    jobs: &[Job],
    worker: &mut Worker<L, B, N, S>,
    gate: &G,
)
    ensures turned { DidTurn S.may_fetch N.opening jobs.now worker.old.id worker.old.pass worker.new.pass worker.old.scrape worker.new.scrape worker.new.turn }
    ensures id { worker.new.id ≡ worker.old.id }
{
    let turn = collector_turn(
        desk,
        rt,
        alloc,
        &mut worker.pass,
        jobs,
        worker.id,
        &mut worker.scrape,
        gate,
    );
    worker.turn = Some(turn);
}
