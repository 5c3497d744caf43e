//! Turns of one collector, one after the other.
ghost use Rattle.std.specs.Prelude.{◌≡◌};

use crate::opening::{JOIN_A, config_of, core_of, reply_of, submit, submit_line};
use alloc_desk::{Desk, DeskName, Log, Pass};
use allocation_core::{Core, Event};
use collector_pool::{Open, Turn, TurnEnd, collector_turn};
use http_get::{FetchFault, Get, Scrape, Script};
use sd_documents::Job;
use std::alloc::{AllocError, Global};
use std::marker::Brand;
use std::sync::Wait;
use std::sync::ledger::{Blank, Ledger};
use std::test::Fail;

const TARGETS: &str =
    r#"{"event":"discover","job":"j","source":0,"targets":[{"labels":{"__scheme__":"http","__metrics_path__":"/a"},"targets":["h:1"]},{"labels":{"__scheme__":"http"},"targets":["h:2"]},{"labels":{"__scheme__":"http"},"targets":["h:3"]},{"labels":{"__scheme__":"https"},"targets":["h:4"]}]}"#;

#[test]
fn turns_report_what_was_fetched(rt: HostRuntime) -> Result<(), Fail> {
    assert!(rt; are_reported(&rt, rt.alloc()));
    Ok(())
}

fn are_reported<R: Wait>(rt: &R, alloc: Global) -> bool {
    match core_of(alloc, 0) {
        Some(core) => {
            over_one_desk::<Brand, Brand, Brand, R>(
                rt,
                alloc,
                core,
                Blank::new(1),
                Blank::new(1),
                Log::new(),
            )
        }
        None => false,
    }
}

fn over_one_desk<L: Ledger, B: Ledger, N: DeskName, R: Wait>(
    rt: &R,
    alloc: Global,
    core: Core,
    calls: Blank,
    samples: Blank,
    log: Log,
) -> bool
    requires core { (core ≡ N.opening) × (N.seats ≡ 1) }
    requires calls { (calls.name ≡ L.name) × (calls.parts ≡ L.parts) × (L.parts ≡ 1) }
    requires samples { (samples.name ≡ B.name) × (samples.parts ≡ B.parts) × (B.parts ≡ 1) }
    requires log { log ≡ N.book }
{
    match Desk::<L, B, N>::open(alloc, core, 1, calls, samples, log) {
        Ok((desk, mut passes)) => by_first_pass(rt, alloc, &desk, passes.as_mut_slice()),
        Err(_) => false,
    }
}

fn by_first_pass<L: Ledger, B: Ledger, N: DeskName, R: Wait>(
    rt: &R,
    alloc: Global,
    desk: &Desk<L, B, N>,
    passes: &mut [Pass<L, B, N>],
) -> bool {
    match passes.first_mut() {
        Some(pass) => prepare(rt, alloc, desk, pass).is_some() && by_config(rt, alloc, desk, pass),
        None => false,
    }
}

fn by_config<L: Ledger, B: Ledger, N: DeskName, R: Wait>(
    rt: &R,
    alloc: Global,
    desk: &Desk<L, B, N>,
    pass: &mut Pass<L, B, N>,
) -> bool {
    match config_of(alloc) {
        Some(config) => by_script(rt, alloc, desk, pass, config.jobs.as_slice()),
        None => false,
    }
}

fn by_script<L: Ledger, B: Ledger, N: DeskName, R: Wait>(
    rt: &R,
    alloc: Global,
    desk: &Desk<L, B, N>,
    pass: &mut Pass<L, B, N>,
    jobs: &[Job],
) -> bool {
    match script_of(alloc) {
        Ok(mut script) => {
            are_wanted(turns_of(rt, alloc, desk, pass, jobs, &mut script))
                && script.failures() == 4
                && asks_in_order(script.asked())
        }
        Err(_) => false,
    }
}

/// A turn of nobody, a turn that scrapes, one that comes too late in its round, and one that runs out of memory.
fn are_wanted(turns: Option<[Turn; 4]>) -> bool {
    match turns {
        Some(turns) => {
            turns
                == [
                    turn(0, 0, 0, 0, TurnEnd::NotJoined),
                    turn(1, 4, 0, 2, TurnEnd::Complete),
                    turn(1, 0, 4, 0, TurnEnd::Complete),
                    turn(1, 1, 0, 0, TurnEnd::Memory),
                ]
        }
        None => false,
    }
}

fn turn(number: u32, booked: u32, refused: u32, samples: u64, end: TurnEnd) -> Turn {
    Turn {
        number,
        booked,
        refused,
        samples,
        end,
    }
}

/// Whether the three targets over HTTP were asked in turn, each at its own address, for its own path.
fn asks_in_order(asked: &[Get]) -> bool {
    let wanted = [("h:1", "/a?m=p"), ("h:2", "/?m=p"), ("h:3", "/?m=p")];
    asked.len() == 8
        && asked.iter().enumerate().all(|(i, get)| {
            let (address, path) = wanted[i % 3];
            get.address.as_str() == address && get.path.as_str() == path
        })
}

fn prepare<L: Ledger, B: Ledger, N: DeskName, R: Wait>(
    rt: &R,
    alloc: Global,
    desk: &Desk<L, B, N>,
    pass: &mut Pass<L, B, N>,
) -> Option<()> {
    submit_line(rt, alloc, desk, pass, JOIN_A)?;
    submit_line(rt, alloc, desk, pass, TARGETS)?;
    match desk.reallocate(rt, alloc, pass, 8) {
        Ok(_) => Some(()),
        Err(_) => None,
    }
}

fn turns_of<L: Ledger, B: Ledger, N: DeskName, R: Wait>(
    rt: &R,
    alloc: Global,
    desk: &Desk<L, B, N>,
    pass: &mut Pass<L, B, N>,
    jobs: &[Job],
    script: &mut Script,
) -> Option<[Turn; 4]> {
    let nobody = collector_turn(desk, rt, alloc, pass, jobs, 2, script, &Open);
    let first = collector_turn(desk, rt, alloc, pass, jobs, 1, script, &Open);
    let late = collector_turn(desk, rt, alloc, pass, jobs, 1, script, &Open);
    submit(rt, desk, pass, Event::NextRound)?;
    let last = collector_turn(desk, rt, alloc, pass, jobs, 1, script, &Open);
    Some([nobody, first, late, last])
}

/// Of the first turn the second fetch fails and the third finds nothing. Of the second turn each fails. Of the third turn the
/// first body is too long, and then memory runs out.
fn script_of(alloc: Global) -> Result<Script, AllocError> {
    let mut script = Script::new(alloc);
    script.push(reply_of(alloc, 200, b"x 1\n# y\ny 2")?)?;
    script.push(Err(FetchFault::Device))?;
    script.push(reply_of(alloc, 404, b"x 1\n")?)?;
    for _ in 0..3 {
        script.push(Err(FetchFault::Device))?;
    }
    script.push(Err(FetchFault::TooLong))?;
    script.push(Err(FetchFault::Memory))?;
    Ok(script)
}
