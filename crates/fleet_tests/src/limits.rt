//! As many targets live as may, and no more.
use crate::allocations::{JOIN, core, items};
use crate::memory::{Applied, apply_line};
use allocation_core::Core;
use std::alloc::{AllocError, Global};
use std::test::Fail;

/// How many targets may live.
const MOST: u32 = 16_384;

/// Whether a source lists so many targets `h:NUMBER`, from this number on, and is answered so.
fn lists(
    alloc: Global,
    core: &mut Core,
    source: u32,
    first: u32,
    count: u32,
    answer: &str,
) -> Result<bool, AllocError> {
    match discovery(alloc, source, first, count) {
        Ok(line) => is_said(apply_line(alloc, core, line.as_str(), answer)),
        Err(error) => Err(error),
    }
}

fn is_said(applied: Result<Applied, AllocError>) -> Result<bool, AllocError> {
    match applied {
        Ok(Applied::AsSaid) => Ok(true),
        Ok(Applied::Otherwise) => Ok(false),
        _ => Err(AllocError),
    }
}

fn discovery(alloc: Global, source: u32, first: u32, count: u32) -> Result<String, AllocError> {
    match format!(in alloc;
        "{{\"event\":\"discover\",\"job\":\"j\",\"source\":{source},\"targets\":["
    ) {
        Ok(line) => with_targets(alloc, line, first, count),
        Err(error) => Err(error),
    }
}

fn with_targets(alloc: Global, line: String, first: u32, count: u32) -> Result<String, AllocError> {
    let mut line = line;
    match push_targets(alloc, &mut line, first, count) {
        Ok(()) => Ok(line),
        Err(error) => Err(error),
    }
}

fn push_targets(
    alloc: Global,
    line: &mut String,
    first: u32,
    count: u32,
) -> Result<(), AllocError> {
    for more in 0..count {
        let comma = if more == 0 { "" } else { "," };
        push_target(alloc, line, first.saturating_add(more), comma)?;
    }
    line.push_str("]}")
}

fn push_target(
    alloc: Global,
    line: &mut String,
    number: u32,
    comma: &str,
) -> Result<(), AllocError> {
    match format!(in alloc; "{comma}{{\"targets\":[\"h:{number}\"]}}") {
        Ok(part) => line.push_str(part.as_str()),
        Err(error) => Err(error),
    }
}

#[test]
fn as_many_targets_are_listed_as_may_live(rt: HostRuntime) -> Result<(), Fail> {
    assert!(rt; lists_most(rt.alloc())?);
    Ok(())
}

fn lists_most(alloc: Global) -> Result<bool, AllocError> {
    match core(alloc) {
        Ok(mut core) => {
            let is_filled = is_filled(alloc, &mut core);
            drop(core);
            is_filled
        }
        Err(error) => Err(error),
    }
}

fn is_filled(alloc: Global, core: &mut Core) -> Result<bool, AllocError> {
    let full = lists(alloc, core, 0, 0, MOST, "Discovered 16384 0")?
        && lists(alloc, core, 1, MOST, 1, "TooManyLive")?;
    Ok(full && knows_most(core) && items(core)? == MOST as usize)
}

fn knows_most(core: &Core) -> bool {
    core.fleet().known().len() == MOST as usize && core.target(MOST - 1).is_some()
}

#[test]
fn refused_targets_are_not_reached(rt: HostRuntime) -> Result<(), Fail> {
    assert!(rt; refuses_most(rt.alloc())?);
    Ok(())
}

fn refuses_most(alloc: Global) -> Result<bool, AllocError> {
    match core(alloc) {
        Ok(mut core) => {
            let reaches_them = reaches_the_others(alloc, &mut core);
            drop(core);
            reaches_them
        }
        Err(error) => Err(error),
    }
}

fn reaches_the_others(alloc: Global, core: &mut Core) -> Result<bool, AllocError> {
    Ok(
        is_said(apply_line(alloc, core, JOIN, "Joined 1"))?
            && lists(alloc, core, 0, 0, 1, "Discovered 1 0")?
            && lists(alloc, core, 1, 1, MOST, "TooManyLive")?
            && reached(core) == [true, false, false]
            && lists(alloc, core, 1, 7, 1, "Discovered 1 0")?
            && reached(core) == [true, true, false]
            && !core.fleet().reaches(1, 0),
    )
}

/// Whether the collector reaches the first three targets.
fn reached(core: &Core) -> [bool; 3] {
    let fleet = core.fleet();
    [
        fleet.reaches(0, 0),
        fleet.reaches(0, 1),
        fleet.reaches(0, 2),
    ]
}
