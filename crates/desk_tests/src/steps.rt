//! What a pass does at a desk, one step after the other.
use crate::mixed::line_of;
use crate::notes::Notes;
use crate::opening::event_in;
use alloc_desk::{Desk, DeskName, Front, Pass};
use allocation_core::Event;
use assign_engine::solve;
use lists::Plain;
use price_certificate::Instance;
use std::alloc::Global;
use std::sync::Wait;
use std::sync::ledger::Ledger;

/// A step of a pass.
#[derive(Clone, Copy, Drop)]
pub(crate) enum Step {
    /// The event of a line is submitted.
    Line(&'static str),
    /// The event of the line of a thread's step, or every so often a search and its Install.
    Mixed,
    /// A reallocation with so many tries.
    Reallocate(u32),
    /// A reallocation that makes loads even, with so many tries, this slack and so many moves for that at most.
    Spread(u32, u32, Option<u32>),
    /// Whether there is anything to reallocate.
    IsChanged,
    /// The entries from a position on, at most so many.
    Entries(usize, usize),
}

/// The steps of each pass: so many of these in turn, the first again behind the last.
#[derive(Clone, Copy, Drop)]
pub(crate) struct Steps {
    pub(crate) of: &'static [Step],
    pub(crate) count: usize,
}

/// Does all steps, as far as none fails.
pub(crate) fn does_all<L: Ledger, B: Ledger, N: DeskName, R: Wait>(
    rt: &R,
    alloc: Global,
    desk: &Desk<L, B, N>,
    pass: &mut Pass<L, B, N>,
    front: &mut Front<N>,
    steps: &Steps,
    notes: &mut Notes,
) -> bool {
    for number in 0..steps.count {
        let Some(step) = step_of(steps, number) else {
            return false;
        };
        if !does(rt, alloc, desk, pass, front, step, number, notes) {
            return false;
        }
    }
    true
}

fn step_of(steps: &Steps, number: usize) -> Option<Step> {
    let place = number.checked_rem(steps.of.len())?;
    steps.of.get(place).copied()
}

fn does<L: Ledger, B: Ledger, N: DeskName, R: Wait>(
    rt: &R,
    alloc: Global,
    desk: &Desk<L, B, N>,
    pass: &mut Pass<L, B, N>,
    front: &mut Front<N>,
    step: Step,
    number: usize,
    notes: &mut Notes,
) -> bool {
    match step {
        Step::Line(line) => tells(rt, alloc, desk, pass, front, event_in(alloc, line), notes),
        Step::Mixed => {
            let event = mixed_event(rt, alloc, desk, pass, front, number);
            tells(rt, alloc, desk, pass, front, event, notes)
        }
        Step::Reallocate(tries) => {
            let ended = desk.reallocate(rt, alloc, pass, tries);
            notes.ends(alloc, ended)
        }
        Step::Spread(tries, slack, most_moves) => {
            let ended = desk.spread(rt, alloc, pass, tries, slack, &[], most_moves);
            notes.ends_spread(alloc, ended)
        }
        Step::IsChanged => {
            let text = if front.is_changed(rt, desk, pass) {
                "changed"
            } else {
                "as it was"
            };
            notes.says(text)
        }
        Step::Entries(from, most) => match front.entries(rt, desk, pass, alloc, from, most) {
            Ok(entries) => {
                let is_listed = notes.lists(alloc, entries.as_slice());
                drop(entries);
                is_listed
            }
            Err(_) => false,
        },
    }
}

fn tells<L: Ledger, B: Ledger, N: DeskName, R: Wait>(
    rt: &R,
    alloc: Global,
    desk: &Desk<L, B, N>,
    pass: &mut Pass<L, B, N>,
    front: &mut Front<N>,
    event: Option<Event>,
    notes: &mut Notes,
) -> bool {
    match twice(event) {
        Some((event, copy)) => match front.submit(rt, desk, pass, copy) {
            Ok(receipt) => notes.takes(alloc, event, receipt),
            Err(_) => {
                drop(event);
                false
            }
        },
        None => false,
    }
}

/// The event and its copy.
fn twice(event: Option<Event>) -> Option<(Event, Event)> {
    match event {
        Some(event) => match event.copy() {
            Ok(copy) => Some((event, copy)),
            Err(_) => {
                drop(event);
                None
            }
        },
        None => None,
    }
}

fn mixed_event<L: Ledger, B: Ledger, N: DeskName, R: Wait>(
    rt: &R,
    alloc: Global,
    desk: &Desk<L, B, N>,
    pass: &mut Pass<L, B, N>,
    front: &mut Front<N>,
    number: usize,
) -> Option<Event> {
    if number % 50 == 49 {
        match front.instance(rt, desk, pass) {
            Ok(instance) => {
                let event = installs(alloc, &instance);
                drop(instance);
                event
            }
            Err(_) => None,
        }
    } else {
        match line_of(alloc, pass.seat(), number) {
            Ok(line) => event_in(alloc, line.as_str()),
            Err(_) => None,
        }
    }
}

/// The Install of the engine's plan.
fn installs(alloc: Global, instance: &Instance) -> Option<Event> {
    match solve(alloc, instance) {
        Ok((plan, _work)) => Some(Event::Install(plan)),
        Err(_) => None,
    }
}
