//! What passes do at a desk, and what comes of it.
ghost use Rattle.std.specs.Prelude.{◌<◌, ◌≤◌};
ghost use Rattle.alloc_desk.specs.declared.limits.TheConstants.{MOST_PASSES};

use crate::desks::{Ended, ended_over};
use crate::opening::{DISCOVER, DISCOVER_FOUR, JOIN, SECOND_JOIN, core_of};
use crate::steps::{Step, Steps};
use alloc_desk::{MOST_PASSES, Receipt};
use allocation_core::{Answer, Core, Event};
use lists::Plain;
use std::alloc::Global;
use std::sync::Wait;
use std::test::Fail;
use std::thread::Threads;

/// What so many passes do at a desk over the allocator of one job with this limit, and what is to come of it.
#[derive(Clone, Copy, Drop)]
struct Script {
    target_limit: u32,
    seats: u32,
    steps: Steps,
    /// What is said of the steps, if they come in one order.
    says: Option<&'static str>,
    /// How many events get a receipt.
    told: usize,
    /// How many calls the passes count, and how many entries the journal has.
    calls: usize,
    round: u32,
}

const ROUND: Step = Step::Line("{\"event\":\"round\"}");

const ENTRIES: Script = Script {
    target_limit: 1,
    seats: 1,
    steps: Steps {
        of: &[
            ROUND,
            ROUND,
            ROUND,
            Step::Entries(0, 2),
            Step::Entries(2, 9),
            Step::Entries(3, 9),
            Step::Entries(9, 1),
            Step::Entries(1, 0),
        ],
        count: 8,
    },
    says: Some(
        "RoundOpen 2;RoundOpen 3;RoundOpen 4;\
        0;{\"event\":\"round\"};RoundOpen 2;0;{\"event\":\"round\"};RoundOpen 3;end;\
        0;{\"event\":\"round\"};RoundOpen 4;end;end;end;end;",
    ),
    told: 3,
    calls: 3,
    round: 4,
};

#[test]
fn entries_are_copied_from_a_position_on(rt: HostRuntime) -> Result<(), Fail> {
    assert!(rt; goes(&rt, rt.alloc(), &ENTRIES));
    Ok(())
}

const REALLOCATIONS: Script = Script {
    target_limit: 1,
    seats: 1,
    steps: Steps {
        of: &[
            Step::Line(JOIN),
            Step::Line(DISCOVER),
            Step::IsChanged,
            Step::Reallocate(2),
            Step::IsChanged,
            Step::Reallocate(2),
            Step::Reallocate(0),
        ],
        count: 7,
    },
    says: Some("Joined 1;Discovered 1 0;changed;Published 1;as it was;Unchanged 1;Overtaken;"),
    told: 2,
    calls: 4,
    round: 1,
};

#[test]
fn a_reallocation_is_published_and_then_unchanged(rt: HostRuntime) -> Result<(), Fail> {
    assert!(rt; goes(&rt, rt.alloc(), &REALLOCATIONS));
    Ok(())
}

/// The second collector joins once the first one has all four targets.
const SPREADS: Script = Script {
    target_limit: 0,
    seats: 1,
    steps: Steps {
        of: &[
            Step::Line(JOIN),
            Step::Line(DISCOVER_FOUR),
            Step::Spread(2, 0, None),
            Step::Line(SECOND_JOIN),
            Step::IsChanged,
            Step::Reallocate(2),
            Step::Spread(2, 0, Some(1)),
            Step::IsChanged,
            Step::Spread(2, 0, Some(1)),
            Step::Spread(2, 0, Some(1)),
            Step::Spread(0, 0, None),
        ],
        count: 11,
    },
    says: Some(
        "Joined 1;Discovered 4 0;Published 1;Joined 2;changed;Unchanged 1;\
        Published 2;as it was;Published 3;Unchanged 3;Overtaken;",
    ),
    told: 3,
    calls: 8,
    round: 1,
};

#[test]
fn loads_are_made_even_one_target_at_a_time(rt: HostRuntime) -> Result<(), Fail> {
    assert!(rt; goes(&rt, rt.alloc(), &SPREADS));
    assert!(rt;
        is_even(core_left(over_desk(
            &rt,
            rt.alloc(),
            core_of(rt.alloc(), SPREADS.target_limit),
            1,
            &SPREADS.steps,
        )))
    );
    Ok(())
}

/// Whether each of two collectors has two targets.
fn is_even(core: Option<Core>) -> bool {
    match core {
        Some(core) => {
            let is_even = held_by(&core, 1) == 2 && held_by(&core, 2) == 2;
            drop(core);
            is_even
        }
        None => false,
    }
}

fn held_by(core: &Core, collector: u32) -> usize {
    core.allocation()
        .iter()
        .filter(|held| held.1 == collector)
        .count()
}

const TWO_THREADS: Script = Script {
    target_limit: 1,
    seats: 2,
    steps: Steps {
        of: &[ROUND],
        count: 500,
    },
    says: None,
    told: 1_000,
    calls: 1_000,
    round: 1_001,
};

#[test]
fn receipts_of_two_threads_agree(rt: HostRuntime) -> Result<(), Fail> {
    assert!(rt; goes(&rt, rt.alloc(), &TWO_THREADS));
    Ok(())
}

/// Everything at once.
const EIGHT_THREADS: Script = Script {
    target_limit: 100,
    seats: 8,
    steps: Steps {
        of: &[Step::Mixed],
        count: 1_250,
    },
    says: None,
    told: 10_000,
    calls: 10_000,
    round: 1_201,
};

#[test]
fn receipts_of_eight_threads_agree(rt: HostRuntime) -> Result<(), Fail> {
    assert!(rt; goes(&rt, rt.alloc(), &EIGHT_THREADS));
    Ok(())
}

fn goes<R: Threads + Wait + Sync>(rt: &R, alloc: Global, script: &Script) -> bool {
    let seats = script.seats;
    if seats == 0 || seats > MOST_PASSES {
        return false;
    }
    match over_desk(
        rt,
        alloc,
        core_of(alloc, script.target_limit),
        seats,
        &script.steps,
    ) {
        Some(ended) => {
            let is_well = is_as_in(&ended, script) && is_replayed(alloc, &ended, script);
            drop(ended);
            is_well
        }
        None => false,
    }
}

fn over_desk<R: Threads + Wait + Sync>(
    rt: &R,
    alloc: Global,
    core: Option<Core>,
    seats: u32,
    steps: &Steps,
) -> Option<Ended>
    requires { (0 < seats) × (seats ≤ MOST_PASSES) }
{
    match core {
        Some(core) => ended_over(rt, alloc, core, seats, steps),
        None => None,
    }
}

fn is_as_in(ended: &Ended, script: &Script) -> bool {
    ended.told.len() == script.told
        && ended.entries == script.calls
        && ended.calls == script.calls as u64
        && ended.core.round() == script.round
        && ended.begins
        && says(ended.said.as_str(), script.says)
}

fn says(said: &str, wanted: Option<&str>) -> bool {
    match wanted {
        Some(wanted) => said == wanted,
        None => true,
    }
}

/// Whether another allocator answers the same, where each call got a receipt; else whether the journal has more than was told.
fn is_replayed(alloc: Global, ended: &Ended, script: &Script) -> bool {
    if script.told < script.calls {
        return !ended.agrees;
    }
    ended.agrees && !ended.agrees_exchanged && answers_again(alloc, ended, script.target_limit)
}

fn answers_again(alloc: Global, ended: &Ended, target_limit: u32) -> bool {
    match core_of(alloc, target_limit) {
        Some(mut again) => {
            let is_alike = answer_alike(&mut again, ended.told.as_slice())
                && again.total() == ended.core.total()
                && again.round() == ended.core.round();
            drop(again);
            is_alike
        }
        None => false,
    }
}

fn answer_alike(core: &mut Core, told: &[(Event, Receipt)]) -> bool {
    for one in told {
        if !answers_alike(core, one) {
            return false;
        }
    }
    true
}

fn answers_alike(core: &mut Core, told: &(Event, Receipt)) -> bool {
    match told.0.copy() {
        Ok(event) => match core.apply(event) {
            Ok(answer) => {
                let is_same = answer.same(&told.1.answer);
                drop(answer);
                is_same
            }
            Err(_) => false,
        },
        Err(_) => false,
    }
}

const TEN_ROUNDS: Steps = Steps {
    of: &[ROUND],
    count: 10,
};

/// A closed desk gives its allocator to the next.
#[test]
fn three_desks_are_opened_over_one_allocator(rt: HostRuntime) -> Result<(), Fail> {
    assert!(rt; opens_thirty_rounds(&rt, rt.alloc()));
    Ok(())
}

fn opens_thirty_rounds<R: Threads + Wait + Sync>(rt: &R, alloc: Global) -> bool {
    let mut core = core_of(alloc, 1);
    for _ in 0..3 {
        core = core_left(over_desk(rt, alloc, core, 1, &TEN_ROUNDS));
    }
    match core {
        Some(core) => {
            let round = core.round();
            drop(core);
            round == 31
        }
        None => false,
    }
}

fn core_left(ended: Option<Ended>) -> Option<Core> {
    match ended {
        Some(ended) => {
            drop((ended.told, ended.said));
            Some(ended.core)
        }
        None => None,
    }
}
