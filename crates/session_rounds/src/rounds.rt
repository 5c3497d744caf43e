//! The rounds.
ghost use Rattle.std.specs.Prelude.{◌≡◌, ◌≤◌, ◌++◌, [], map, All, Any, IfErr, IfOk, IfSome, OnOk};
ghost use Rattle.session.specs.Lines.{no_sums, round_line as round_line_text, sums_from};
ghost use Rattle.session_rounds.specs.Rounds.{HadTurns, IsDone, RanRounds};
ghost use Rattle.session_rounds.specs.Stops.{IsQuietStop, IsStop, IsTurnStop};
ghost use Rattle.session_rounds.specs.Turns.{turns_in};

use crate::entering::enter;
use crate::refreshing::{Refresher, renew};
use crate::stop::SessionStop;
use alloc_desk::{Desk, DeskName, Pass};
use allocation_core::Event;
use collector_pool::{Gate, Turn, TurnEnd, Worker, run_round};
use http_get::Scrape;
use sd_documents::Job;
use session::{round_line, sums_of};
use std::alloc::{AllocError, Global};
use std::sync::Wait;
use std::sync::ledger::Ledger;
use std::thread;
use std::thread::Threads;

/// Runs so many rounds and writes the line of each. Between two the next one is opened. In each the collectors have their turns, each on
/// a thread, while another refreshes the sources and reallocates.
pub fn run_rounds<
    L: Ledger + Send + Sync,
    B: Ledger + Send + Sync,
    N: DeskName + Send + Sync,
    S: Scrape + Send,
    G: Gate + Sync,
    R: Threads + Wait + Sync,
>(
    desk: &Desk<L, B, N>,
    rt: &R,
    alloc: Global,
    jobs: &[Job],
    rounds: u32,
    workers: &mut [Worker<L, B, N, S>],
    refresher: &mut Refresher<L, B, N, S>,
    gate: &G,
    text: &mut Vec<u8>,
) -> Result<(), SessionStop>
    ensures rounds { OnOk result (RanRounds S.may_fetch N.opening jobs.now rounds workers.old workers.new text.old.items text.new.items) }
    ensures stopped { IfErr result (IsStop N.opening refresher.old.pass refresher.new.pass (λ e. e ≡ Event.NextRound) jobs.now) }
    ensures grown { refresher.old.pass.calls ≤ refresher.new.pass.calls }
    ensures booked { refresher.new.pass.booked ≡ refresher.old.pass.booked }
    ensures seat { refresher.new.pass.seat ≡ refresher.old.pass.seat }
{
    for round in 0..rounds {
        open_round(desk, rt, round, &mut refresher.pass)?;
        run_one(desk, rt, alloc, jobs, workers, refresher, gate)?;
        write_round(alloc, 1 + round, workers, text)?;
    }
    Ok(())
}

/// Opens a round. The first is open from the start.
fn open_round<L: Ledger, B: Ledger, N: DeskName, R: Wait>(
    desk: &Desk<L, B, N>,
    rt: &R,
    round: u32,
    pass: &mut Pass<L, B, N>,
) -> Result<(), SessionStop>
    ensures stopped { IfErr result (IsStop N.opening pass.old pass.new (λ e. e ≡ Event.NextRound) []) }
    ensures grown { pass.old.calls ≤ pass.new.calls }
    ensures booked { pass.new.booked ≡ pass.old.booked }
    ensures seat { pass.new.seat ≡ pass.old.seat }
{
    if round == 0 {
        return Ok(());
    }
    enter(desk, rt, pass, Event::NextRound)
}

/// Runs the round that is open. The refresher's device may be of another type than the workers'.
fn run_one<
    L: Ledger + Send + Sync,
    B: Ledger + Send + Sync,
    N: DeskName + Send + Sync,
    S: Scrape + Send,
    T: Scrape,
    G: Gate + Sync,
    R: Threads + Wait + Sync,
>(
    desk: &Desk<L, B, N>,
    rt: &R,
    alloc: Global,
    jobs: &[Job],
    workers: &mut [Worker<L, B, N, S>],
    refresher: &mut Refresher<L, B, N, T>,
    gate: &G,
) -> Result<(), SessionStop>
    ensures turns { HadTurns S.may_fetch N.opening jobs.now workers.old (turns_in (map (λ w. w.turn) workers.new)) workers.new }
    ensures done { OnOk result (All IsDone (turns_in (map (λ w. w.turn) workers.new))) }
    ensures stopped { IfErr result (IsQuietStop N.opening jobs.now) }
    ensures grown { refresher.old.pass.calls ≤ refresher.new.pass.calls }
    ensures booked { refresher.new.pass.booked ≡ refresher.old.pass.booked }
    ensures seat { refresher.new.pass.seat ≡ refresher.old.pass.seat }
{
    // Each closure borrows an allocator of its own.
    let renewing = alloc;
    let ((), renewed) = thread::join_mut(
        rt,
        &mut || run_turns(desk, rt, alloc, jobs, gate, workers),
        &mut || renew(desk, rt, renewing, jobs, refresher),
    );
    renewed?;
    all_done(workers)
}

/// One turn of each worker.
fn run_turns<
    L: Ledger + Send + Sync,
    B: Ledger + Send + Sync,
    N: DeskName + Send + Sync,
    S: Scrape + Send,
    G: Gate + Sync,
    R: Threads + Wait + Sync,
>(
    desk: &Desk<L, B, N>,
    rt: &R,
    alloc: Global,
    jobs: &[Job],
    gate: &G,
    workers: &mut [Worker<L, B, N, S>],
)
    ensures { HadTurns S.may_fetch N.opening jobs.now workers.old (turns_in (map (λ w. w.turn) workers.new)) workers.new }
{
    run_round(desk, rt, alloc, jobs, workers, gate);
}

/// Whether no turn met a full journal or ran out of memory.
fn all_done<L: Ledger, B: Ledger, N: DeskName, S>(
    workers: &[Worker<L, B, N, S>],
) -> Result<(), SessionStop>
    ensures done { OnOk result (All IsDone (turns_in (map (λ w. w.turn) workers.now))) }
    ensures stopped { IfErr result (λ stop. Any (λ w. IsTurnStop w.turn stop) workers.now) }
{
    for worker in workers {
        done(worker.turn)?;
    }
    Ok(())
}

/// Whether a turn, where there was one, met neither.
fn done(turn: Option<Turn>) -> Result<(), SessionStop>
    ensures done { OnOk result (IfSome turn IsDone) }
    ensures stopped { IfErr result (IsTurnStop turn) }
{
    let Some(turn) = turn else {
        return Ok(());
    };
    match turn.end {
        TurnEnd::Complete | TurnEnd::NotJoined => Ok(()),
        TurnEnd::JournalFull => Err(SessionStop::JournalFull),
        TurnEnd::Memory => Err(SessionStop::Memory),
    }
}

/// Writes the line of a round, with the sums over the workers' turns.
fn write_round<L: Ledger, B: Ledger, N: DeskName, S>(
    alloc: Global,
    round: u32,
    workers: &[Worker<L, B, N, S>],
    text: &mut Vec<u8>,
) -> Result<(), AllocError>
    ensures { OnOk result (text.new.items ≡ text.old.items ++ round_line_text round (sums_from no_sums (turns_in (map (λ w. w.turn) workers.now)))) }
{
    let turns = turns_of(alloc, workers)?;
    let sums = sums_of(turns.as_slice());
    let line = round_line(alloc, round, &sums)?;
    text.extend_from_slice(line.as_bytes())?;
    Ok(())
}

fn turns_of<L: Ledger, B: Ledger, N: DeskName, S>(
    alloc: Global,
    workers: &[Worker<L, B, N, S>],
) -> Result<Vec<Turn>, AllocError>
    ensures { IfOk result (λ v. v.items ≡ turns_in (map (λ w. w.turn) workers.now)) }
{
    let mut turns = Vec::new(alloc);
    for worker in workers {
        if let Some(turn) = worker.turn {
            turns.push(turn)?;
        }
    }
    Ok(turns)
}
