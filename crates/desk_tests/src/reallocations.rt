//! Reallocation of an allocator alone.
use crate::opening::{DISCOVER, JOIN, core_of, event_in};
use alloc_desk::reallocate;
use allocation_core::{Answer, Core, Refusal};
use std::alloc::Global;
use std::test::Fail;

#[test]
fn an_allocator_alone_is_reallocated(rt: HostRuntime) -> Result<(), Fail> {
    assert!(rt; opens_and_reallocates(rt.alloc()));
    Ok(())
}

fn opens_and_reallocates(alloc: Global) -> bool {
    match core_of(alloc, 1) {
        Some(mut core) => {
            let is_reallocated = is_reallocated(alloc, &mut core);
            drop(core);
            is_reallocated
        }
        None => false,
    }
}

fn is_reallocated(alloc: Global, core: &mut Core) -> bool {
    let applied = apply(alloc, core, JOIN) && apply(alloc, core, DISCOVER);
    applied && is_published(alloc, core) && is_unchanged(alloc, core)
}

/// Applies the event of a line.
fn apply(alloc: Global, core: &mut Core, line: &str) -> bool {
    match event_in(alloc, line) {
        Some(event) => core.apply(event).is_ok(),
        None => false,
    }
}

fn is_published(alloc: Global, core: &mut Core) -> bool {
    let first = reallocate(alloc, core);
    matches!(first, Ok(Answer::Published(1))) && core.allocation() == [(0, 1)].as_slice()
}

fn is_unchanged(alloc: Global, core: &mut Core) -> bool {
    let second = reallocate(alloc, core);
    matches!(second, Ok(Answer::Not(Refusal::Unchanged(1)))) && core.current() == 1
}
