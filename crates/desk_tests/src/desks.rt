//! A desk at which each pass does the same steps, in a thread of its own.
ghost use Rattle.std.specs.Prelude.{◌≡◌, ◌<◌, ◌≤◌};
ghost use Rattle.alloc_desk.specs.declared.limits.TheConstants.{MOST_PASSES};

use crate::notes::{Notes, Told};
use crate::steps::{Steps, does_all};
use alloc_desk::{Closed, Desk, DeskName, Front, Log, Pass, PassMissing};
use allocation_core::Core;
use std::alloc::Global;
use std::marker::Brand;
use std::sync::Wait;
use std::sync::ledger::{Blank, Ledger};
use std::thread::{Threads, for_each_mut};

/// A thread's pass, what it has seen of the journal, and what it was told.
#[derive(Drop)]
struct Worker<L: Ledger, B: Ledger, N: DeskName> {
    pass: Pass<L, B, N>,
    front: Front<N>,
    notes: Notes,
    done: bool,
}

/// What is left of a desk that was closed.
#[derive(Drop)]
pub(crate) struct Ended {
    pub(crate) core: Core,
    /// What the passes were told, in order of the journal.
    pub(crate) told: Told,
    pub(crate) said: String,
    /// How many calls the passes count.
    pub(crate) calls: u64,
    /// How many entries the journal has.
    pub(crate) entries: usize,
    /// The journal agrees with what was told.
    pub(crate) agrees: bool,
    /// It begins with what each thread has seen.
    pub(crate) begins: bool,
    /// It does so too where the first two receipts change places.
    pub(crate) agrees_exchanged: bool,
}

/// A desk over the allocator with so many passes, which is closed once each of them did all steps.
pub(crate) fn ended_over<R: Threads + Wait + Sync>(
    rt: &R,
    alloc: Global,
    core: Core,
    seats: u32,
    steps: &Steps,
) -> Option<Ended>
    requires { (0 < seats) × (seats ≤ MOST_PASSES) }
{
    let parts = u64::from(seats);
    ended_at::<Brand, Brand, Brand, R>(
        rt,
        alloc,
        core,
        seats,
        Blank::new(parts),
        Blank::new(parts),
        Log::new(),
        steps,
    )
}

fn ended_at<
    L: Ledger + Send + Sync,
    B: Ledger + Send + Sync,
    N: DeskName + Send + Sync,
    R: Threads + Wait + Sync,
>(
    rt: &R,
    alloc: Global,
    core: Core,
    seats: u32,
    calls: Blank,
    samples: Blank,
    log: Log,
    steps: &Steps,
) -> Option<Ended>
    requires core { (core ≡ N.opening) × (N.seats ≡ seats) }
    requires seats { (0 < seats) × (seats ≤ MOST_PASSES) }
    requires calls { (calls.name ≡ L.name) × (calls.parts ≡ L.parts) × (L.parts ≡ seats) }
    requires samples { (samples.name ≡ B.name) × (samples.parts ≡ B.parts) × (B.parts ≡ seats) }
    requires log { log ≡ N.book }
{
    match Desk::<L, B, N>::open(alloc, core, seats, calls, samples, log) {
        Ok((desk, passes)) => worked(rt, alloc, desk, passes, steps),
        Err(core) => {
            drop(core);
            None
        }
    }
}

fn worked<
    L: Ledger + Send + Sync,
    B: Ledger + Send + Sync,
    N: DeskName + Send + Sync,
    R: Threads + Wait + Sync,
>(
    rt: &R,
    alloc: Global,
    desk: Desk<L, B, N>,
    mut passes: Vec<Pass<L, B, N>>,
    steps: &Steps,
) -> Option<Ended> {
    let mut notes = Notes::new(alloc);
    let mut fronts = Vec::new(alloc);
    all_work(
        rt,
        alloc,
        &desk,
        &mut passes,
        &mut fronts,
        steps,
        &mut notes,
    );
    left_of(desk, passes, fronts, notes)
}

/// Each pass does all steps. The passes of those that failed do not come back.
fn all_work<
    L: Ledger + Send + Sync,
    B: Ledger + Send + Sync,
    N: DeskName + Send + Sync,
    R: Threads + Wait + Sync,
>(
    rt: &R,
    alloc: Global,
    desk: &Desk<L, B, N>,
    passes: &mut Vec<Pass<L, B, N>>,
    fronts: &mut Vec<Front<N>>,
    steps: &Steps,
    notes: &mut Notes,
) {
    let mut workers = Vec::new(alloc);
    let _is_hired = hire(rt, alloc, desk, &mut workers, passes);
    work(rt, alloc, desk, workers.as_mut_slice(), steps);
    dismiss(passes, fronts, notes, &mut workers);
    drop(workers);
}

/// Gives each pass to a worker.
fn hire<L: Ledger, B: Ledger, N: DeskName, R: Wait>(
    rt: &R,
    alloc: Global,
    desk: &Desk<L, B, N>,
    workers: &mut Vec<Worker<L, B, N>>,
    passes: &mut Vec<Pass<L, B, N>>,
) -> bool {
    for _ in 0..passes.len() {
        if !hires(rt, alloc, desk, workers, passes.pop()) {
            return false;
        }
    }
    true
}

fn hires<L: Ledger, B: Ledger, N: DeskName, R: Wait>(
    rt: &R,
    alloc: Global,
    desk: &Desk<L, B, N>,
    workers: &mut Vec<Worker<L, B, N>>,
    pass: Option<Pass<L, B, N>>,
) -> bool {
    match pass {
        Some(pass) => workers
            .push(Worker {
                pass,
                front: desk.front(rt),
                notes: Notes::new(alloc),
                done: false,
            })
            .is_ok(),
        None => false,
    }
}

fn work<
    L: Ledger + Send + Sync,
    B: Ledger + Send + Sync,
    N: DeskName + Send + Sync,
    R: Threads + Wait + Sync,
>(rt: &R, alloc: Global, desk: &Desk<L, B, N>, workers: &mut [Worker<L, B, N>], steps: &Steps) {
    for_each_mut(
        rt,
        workers,
        8,
        &|_, worker| {
            let Worker {
                pass,
                front,
                notes,
                done,
            } = worker;
            *done = does_all(rt, alloc, desk, pass, front, steps, notes);
        },
    );
}

/// Takes the passes of the workers that did all steps, and what they were told and have seen.
fn dismiss<L: Ledger, B: Ledger, N: DeskName>(
    passes: &mut Vec<Pass<L, B, N>>,
    fronts: &mut Vec<Front<N>>,
    notes: &mut Notes,
    workers: &mut Vec<Worker<L, B, N>>,
) {
    for _ in 0..workers.len() {
        let _is_back = is_back(passes, fronts, notes, workers.pop());
    }
}

fn is_back<L: Ledger, B: Ledger, N: DeskName>(
    passes: &mut Vec<Pass<L, B, N>>,
    fronts: &mut Vec<Front<N>>,
    all: &mut Notes,
    worker: Option<Worker<L, B, N>>,
) -> bool {
    match worker {
        Some(worker) => {
            let Worker {
                pass,
                front,
                notes,
                done,
            } = worker;
            all.calls = all.calls.saturating_add(pass.calls());
            done && all.adds(notes) && fronts.push(front).is_ok() && passes.push(pass).is_ok()
        }
        None => false,
    }
}

fn left_of<L: Ledger, B: Ledger, N: DeskName>(
    desk: Desk<L, B, N>,
    passes: Vec<Pass<L, B, N>>,
    fronts: Vec<Front<N>>,
    notes: Notes,
) -> Option<Ended> {
    match closed_in_two_steps(desk, passes) {
        Some(closed) => {
            let ended = ended_with(closed, fronts.as_slice(), notes);
            drop(fronts);
            ended
        }
        None => {
            drop((fronts, notes));
            None
        }
    }
}

/// One pass is missing, and then none.
fn closed_in_two_steps<L: Ledger, B: Ledger, N: DeskName>(
    desk: Desk<L, B, N>,
    mut passes: Vec<Pass<L, B, N>>,
) -> Option<Closed<N>> {
    let last = passes.pop();
    let left = passes.len();
    match desk.close(passes) {
        Ok(closed) => {
            drop((closed, last));
            None
        }
        Err(missing) => closed_with(missing, left, last),
    }
}

fn closed_with<L: Ledger, B: Ledger, N: DeskName>(
    missing: PassMissing<L, B, N>,
    left: usize,
    last: Option<Pass<L, B, N>>,
) -> Option<Closed<N>> {
    let PassMissing { desk, mut passes } = missing;
    let _is_back = gives_back(&mut passes, left, last);
    match desk.close(passes) {
        Ok(closed) => Some(closed),
        Err(missing) => {
            drop(missing);
            None
        }
    }
}

/// Puts the last pass behind those that are left.
fn gives_back<L: Ledger, B: Ledger, N: DeskName>(
    passes: &mut Vec<Pass<L, B, N>>,
    left: usize,
    last: Option<Pass<L, B, N>>,
) -> bool {
    match last {
        Some(last) => passes.len() == left && passes.push(last).is_ok(),
        None => false,
    }
}

fn ended_with<N: DeskName>(closed: Closed<N>, fronts: &[Front<N>], notes: Notes) -> Option<Ended> {
    let Notes {
        mut told,
        said,
        calls,
    } = notes;
    match told.sort_by_key(|one| one.1.position) {
        Ok(()) => Some(seen(closed, fronts, told, said, calls)),
        Err(_) => {
            drop((closed, told, said));
            None
        }
    }
}

fn seen<N: DeskName>(
    closed: Closed<N>,
    fronts: &[Front<N>],
    mut told: Told,
    said: String,
    calls: u64,
) -> Ended {
    let agrees = closed.agrees(told.as_slice());
    let begins = begins_with_all(&closed, fronts);
    let agrees_exchanged = agrees_exchanged(&closed, &mut told);
    let entries = closed.journal().len();
    Ended {
        core: closed.into_core(),
        told,
        said,
        calls,
        entries,
        agrees,
        begins,
        agrees_exchanged,
    }
}

fn begins_with_all<N: DeskName>(closed: &Closed<N>, fronts: &[Front<N>]) -> bool {
    for front in fronts {
        if !closed.begins_with(front) {
            return false;
        }
    }
    true
}

fn agrees_exchanged<N: DeskName>(closed: &Closed<N>, told: &mut Told) -> bool {
    if told.len() < 2 {
        return false;
    }
    told.swap(0, 1);
    let agrees = closed.agrees(told.as_slice());
    told.swap(0, 1);
    agrees
}
