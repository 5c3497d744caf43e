//! Rows of a table of who reaches what.
use crate::instances::is_copied;
use crate::labels::set_of;
use label_sets::{Finished, LabelError, Target, finish};
use reach_rules::{CollectorName, OwnLimits, Reach, ReachError, ReachTable};
use serde_json::Value;
use std::alloc::{AllocError, Global};
use std::test::Fail;

const ONLY_X: &str = "[{\"allow\":true,\"test\":\"equals\",\"label\":\"zone\",\"value\":\"x\"}]";

const EVERYTHING: &str = "[{\"allow\":true,\"test\":\"any\"}]";

/// A step of a table's history.
#[derive(Clone, Copy)]
enum Step {
    /// The collector of an id joins with rules, and is given so many targets.
    Join(u32, &'static str, usize),
    /// The targets of these numbers appear.
    Appear(usize, usize),
    /// The collector of an id leaves.
    Leave(u32),
    /// Room is made for so many targets.
    Room(usize),
}

/// The table after these steps.
fn table_after(alloc: Global, steps: &[Step]) -> Result<ReachTable, AllocError> {
    let mut table = ReachTable::open(alloc);
    for step in steps {
        take(alloc, &mut table, *step)?;
    }
    Ok(table)
}

fn take(alloc: Global, table: &mut ReachTable, step: Step) -> Result<(), AllocError> {
    match step {
        Step::Join(id, rules, known) => join(alloc, table, id, rules, known),
        Step::Appear(first, end) => appear(alloc, table, first, end),
        Step::Leave(id) => {
            table.leave(id);
            Ok(())
        }
        Step::Room(more) => table.room(more),
    }
}

fn join(
    alloc: Global,
    table: &mut ReachTable,
    id: u32,
    rules: &str,
    known: usize,
) -> Result<(), AllocError> {
    match reach_of(alloc, rules) {
        Ok(reach) => join_by(alloc, table, id, &reach, known),
        Err(_) => Err(AllocError),
    }
}

fn join_by(
    alloc: Global,
    table: &mut ReachTable,
    id: u32,
    reach: &Reach,
    known: usize,
) -> Result<(), AllocError> {
    match targets(alloc, 0, known) {
        Ok(known) => table.join(id, reach, known.as_slice()),
        Err(error) => Err(error),
    }
}

fn appear(
    alloc: Global,
    table: &mut ReachTable,
    first: usize,
    end: usize,
) -> Result<(), AllocError> {
    match targets(alloc, first, end) {
        Ok(more) => table.appear(more.as_slice()),
        Err(error) => Err(error),
    }
}

fn reach_of(alloc: Global, rules: &str) -> Result<Reach, ReachError> {
    match Value::from_str(alloc, rules) {
        Ok(value) => Reach::read(alloc, &value),
        Err(_) => Err(ReachError::Memory),
    }
}

/// The targets of these numbers: each third is in zone x, and the others are in zone y.
fn targets(alloc: Global, first: usize, end: usize) -> Result<Vec<Target>, AllocError> {
    let mut targets = Vec::new(alloc);
    for number in first..end {
        let zone = if number % 3 == 0 { "x" } else { "y" };
        push_target(alloc, &mut targets, zone)?;
    }
    Ok(targets)
}

fn push_target(alloc: Global, targets: &mut Vec<Target>, zone: &str) -> Result<(), AllocError> {
    match target_in(alloc, zone) {
        Ok(Finished::Target(target)) => Ok(targets.push(target)?),
        _ => Err(AllocError),
    }
}

/// A target of the zone.
fn target_in(alloc: Global, zone: &str) -> Result<Finished, LabelError> {
    match set_of(alloc, &[("__address__", "h:1"), ("zone", zone)]) {
        Ok(labels) => finished(finish(alloc, &labels)),
        Err(error) => Err(error),
    }
}

fn finished(target: Result<Finished, AllocError>) -> Result<Finished, LabelError> {
    match target {
        Ok(target) => Ok(target),
        Err(_) => Err(LabelError::Memory),
    }
}

/// What a table is asked.
#[derive(Clone, Copy)]
enum Asked {
    /// Whether the collector of an id reaches exactly each third of so many targets.
    Thirds(u32, usize),
    /// Whether the collector of an id reaches the target of a number.
    Reaches(u32, usize),
    /// Whether it does not.
    Misses(u32, usize),
    /// The same of the collector at a place.
    ReachesAt(usize, usize),
    MissesAt(usize, usize),
}

/// Whether the table after these steps says yes to all that it is asked.
fn says(alloc: Global, steps: &[Step], asked: &[Asked]) -> Result<bool, AllocError> {
    match table_after(alloc, steps) {
        Ok(table) => Ok(says_all(&table, asked)),
        Err(error) => Err(error),
    }
}

fn says_all(table: &ReachTable, all: &[Asked]) -> bool {
    for asked in all {
        if !is_so(table, *asked) {
            return false;
        }
    }
    true
}

fn is_so(table: &ReachTable, asked: Asked) -> bool {
    match asked {
        Asked::Thirds(id, known) => reaches_thirds(table, id, known),
        Asked::Reaches(id, number) => table.reaches(id, number),
        Asked::Misses(id, number) => !table.reaches(id, number),
        Asked::ReachesAt(place, number) => table.reaches_at(place, number),
        Asked::MissesAt(place, number) => !table.reaches_at(place, number),
    }
}

fn reaches_thirds(table: &ReachTable, id: u32, known: usize) -> bool {
    for number in 0..known {
        if table.reaches(id, number) != (number % 3 == 0) {
            return false;
        }
    }
    !table.reaches(id, known)
}

#[test]
fn targets_appear_after_a_join(rt: HostRuntime) -> Result<(), Fail> {
    let steps = [
        Step::Join(7, ONLY_X, 0),
        Step::Appear(0, 70),
        Step::Appear(70, 131),
    ];
    let asked = [Asked::Thirds(7, 131), Asked::Misses(8, 0)];
    assert!(rt; says(rt.alloc(), steps.as_slice(), asked.as_slice())?);
    Ok(())
}

#[test]
fn a_collector_joins_after_targets_appeared(rt: HostRuntime) -> Result<(), Fail> {
    let steps = [
        Step::Appear(0, 65),
        Step::Join(1, EVERYTHING, 65),
        Step::Join(2, ONLY_X, 65),
        Step::Appear(65, 100),
    ];
    let asked = [
        Asked::Thirds(2, 100),
        Asked::Reaches(1, 98),
        Asked::ReachesAt(0, 98),
        Asked::ReachesAt(1, 99),
        Asked::MissesAt(1, 98),
        Asked::MissesAt(2, 0),
        Asked::MissesAt(0, 100),
    ];
    assert!(rt; says(rt.alloc(), steps.as_slice(), asked.as_slice())?);
    Ok(())
}

#[test]
fn who_left_reaches_nothing(rt: HostRuntime) -> Result<(), Fail> {
    let steps = [
        Step::Join(1, ONLY_X, 0),
        Step::Join(2, EVERYTHING, 0),
        Step::Join(3, ONLY_X, 0),
        Step::Appear(0, 70),
        Step::Leave(2),
        Step::Appear(70, 80),
    ];
    let asked = [
        Asked::Thirds(1, 80),
        Asked::Thirds(3, 80),
        Asked::Misses(2, 1),
        Asked::MissesAt(1, 1),
        Asked::ReachesAt(1, 78),
        Asked::MissesAt(2, 78),
    ];
    assert!(rt; says(rt.alloc(), steps.as_slice(), asked.as_slice())?);
    Ok(())
}

#[test]
fn room_is_for_what_appears(rt: HostRuntime) -> Result<(), Fail> {
    let steps = [
        Step::Join(1, ONLY_X, 0),
        Step::Room(130),
        Step::Appear(0, 130),
    ];
    assert!(rt; says(rt.alloc(), &steps[..2], &[Asked::Misses(1, 0)])?);
    assert!(rt; says(rt.alloc(), steps.as_slice(), &[Asked::Thirds(1, 130)])?);
    Ok(())
}

/// Rules, names and own limits are the same as their copies.
#[test]
fn copies_are_the_same(rt: HostRuntime) -> Result<(), Fail> {
    let alloc = rt.alloc();
    for rules in [
        "[]",
        EVERYTHING,
        "[{\"allow\":false,\"test\":\"equals\",\"label\":\"zone\",\"value\":\"x\"},{\"allow\":true,\"test\":\"any\"}]",
        "[{\"allow\":true,\"test\":\"present\",\"label\":\"zone\"}]",
        "[{\"allow\":true,\"test\":\"equals\",\"label\":\"zone\",\"value\":\"\"}]",
    ] {
        assert!(rt; copies_rules(alloc, rules)?);
    }
    assert!(rt; copies_name(alloc)? && copies_limits(alloc)?);
    Ok(())
}

fn copies_rules(alloc: Global, rules: &str) -> Result<bool, AllocError> {
    match reach_of(alloc, rules) {
        Ok(reach) => is_copied(&reach),
        Err(_) => Err(AllocError),
    }
}

/// A name of the greatest length.
const LONG_NAME: &str = "€€€€€€€€€€€€€€€€€€€€€€€€€€€€€€€€€€€€€€€€€€ab";

fn copies_name(alloc: Global) -> Result<bool, AllocError> {
    match CollectorName::read(alloc, LONG_NAME) {
        Ok(name) => copies_long_name(&name),
        Err(_) => Ok(false),
    }
}

fn copies_long_name(name: &CollectorName) -> Result<bool, AllocError> {
    Ok(is_copied(name)? && name.as_str() == LONG_NAME)
}

fn copies_limits(alloc: Global) -> Result<bool, AllocError> {
    let mut limits = OwnLimits::none(alloc);
    match set_two(&mut limits) {
        Ok(()) => is_copied(&limits),
        Err(error) => Err(error),
    }
}

fn set_two(limits: &mut OwnLimits) -> Result<(), AllocError> {
    limits.set("a", 1)?;
    limits.set("b", 2)
}
