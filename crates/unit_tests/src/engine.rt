//! Counts that rows fix, and cases at an edge.
mod generated;

use assign_engine::{Work, solve};
use lists::List;
use price_certificate::{Instance, InstanceError, Verdict, check, read_document};
use std::alloc::{AllocError, Global};
use std::test::Fail;

/// What the checker says of the engine's plan, how much was searched for it, and whether its pairs are those that are asked for.
fn judged(
    alloc: Global,
    instance: &Instance,
    pairs: Option<&[(u32, u32)]>,
) -> Result<(Verdict, Work, bool), AllocError> {
    match solve(alloc, instance) {
        Ok((plan, work)) => {
            let same = are_asked_for(plan.pairs.as_slice(), pairs);
            match check(alloc, instance, &plan) {
                Ok(verdict) => Ok((verdict, work, same)),
                Err(error) => Err(error),
            }
        }
        Err(error) => Err(error),
    }
}

fn are_asked_for(found: &[(u32, u32)], pairs: Option<&[(u32, u32)]>) -> bool {
    match pairs {
        Some(pairs) => found == pairs,
        None => true,
    }
}

/// What the checker says of a best plan that covers and moves so many, none of which had to leave.
fn best(covered: u64, moved: u64) -> Verdict {
    Verdict::Best {
        covered,
        left: 0,
        moved,
    }
}

fn work(searches: u64, settled: u64) -> Work {
    Work { searches, settled }
}

/// One item that may use both bins and was in the first, and one that may use the first alone.
const ONE_GIVES_WAY: &str =
    r#"{"version":1,"bins":[1,1],"reach":[[0,1],[0]],"before":[[0,0]],"pairs":[],"item_prices":[],"bin_prices":[]}"#;

const NO_ITEMS: &str =
    r#"{"version":1,"bins":[3],"reach":[],"before":[],"pairs":[],"item_prices":[],"bin_prices":[]}"#;

const NOTHING_IN_REACH: &str =
    r#"{"version":1,"bins":[1],"reach":[[],[]],"before":[[1,0]],"pairs":[],"item_prices":[],"bin_prices":[]}"#;

const NO_LIMIT: &str =
    r#"{"version":1,"bins":[0],"reach":[[0],[0],[0]],"before":[[2,0]],"pairs":[],"item_prices":[],"bin_prices":[]}"#;

const BEFORE_IS_NOT_ALLOWED: &str =
    r#"{"version":1,"bins":[1,1],"reach":[[1]],"before":[[0,0]],"pairs":[],"item_prices":[],"bin_prices":[]}"#;

const MORE_BEFORE_THAN_ROOM: &str =
    r#"{"version":1,"bins":[1,1],"reach":[[0],[0,1],[0]],"before":[[0,0],[1,0],[2,0]],"pairs":[],"item_prices":[],"bin_prices":[]}"#;

/// What comes of the instance of a document.
fn solved(
    alloc: Global,
    text: &str,
    pairs: Option<&[(u32, u32)]>,
) -> Result<(Verdict, Work, bool), AllocError> {
    match read_document(alloc, text.as_bytes()) {
        Ok((instance, _)) => judged(alloc, &instance, pairs),
        Err(_) => Err(AllocError),
    }
}

#[test]
fn moves_an_item_for_another(rt: HostRuntime) -> Result<(), Fail> {
    let pairs = [(0, 1), (1, 0)];
    let found = solved(rt.alloc(), ONE_GIVES_WAY, Some(pairs.as_slice()))?;
    assert!(rt; found == (best(2, 1), work(1, 1), true));
    Ok(())
}

#[test]
fn solves_what_is_at_an_edge(rt: HostRuntime) -> Result<(), Fail> {
    for (text, verdict, done) in [
        (NO_ITEMS, best(0, 0), work(0, 0)),
        (NOTHING_IN_REACH, best(0, 1), work(0, 0)),
        (NO_LIMIT, best(3, 0), work(0, 0)),
        (BEFORE_IS_NOT_ALLOWED, best(1, 1), work(0, 0)),
        (MORE_BEFORE_THAN_ROOM, best(2, 2), work(2, 2)),
    ] {
        assert!(rt;
            solved(rt.alloc(), text, None)? == (verdict, done, true),
            "{text}"
        );
    }
    Ok(())
}

/// 2,000 items and 20 bins: item t reaches bins t and t + 1, round the ring, and was at the latter.
fn ring(alloc: Global, limit: u32) -> Result<Instance, InstanceError> {
    match (
        ring_limits(alloc, limit),
        ring_rows(alloc),
        ring_before(alloc),
    ) {
        (Ok(limits), Ok(rows), Ok(before)) => Instance::new(alloc, limits, rows, before),
        _ => Err(InstanceError::Memory),
    }
}

fn ring_limits(alloc: Global, limit: u32) -> Result<List<u32>, AllocError> {
    let mut limits = List::new(alloc);
    for _ in 0..20 {
        limits.push(limit)?;
    }
    Ok(limits)
}

/// The bins that an item of the ring may use.
fn bins_of(item: u32) -> (u32, u32) {
    let bin = item % 20;
    (bin, (bin + 1) % 20)
}

fn ring_rows(alloc: Global) -> Result<List<List<u32>>, AllocError> {
    let mut rows = List::new(alloc);
    for item in 0..2000u32 {
        push_row(&mut rows, row_of(alloc, bins_of(item)))?;
    }
    Ok(rows)
}

fn row_of(alloc: Global, bins: (u32, u32)) -> Result<List<u32>, AllocError> {
    let (bin, next) = bins;
    match Vec::from_slice(alloc, &[bin.min(next), bin.max(next)]) {
        Ok(row) => Ok(List::from_vec(row)),
        Err(error) => Err(error),
    }
}

fn push_row(
    rows: &mut List<List<u32>>,
    row: Result<List<u32>, AllocError>,
) -> Result<(), AllocError> {
    match row {
        Ok(row) => rows.push(row),
        Err(error) => Err(error),
    }
}

fn ring_before(alloc: Global) -> Result<List<(u32, u32)>, AllocError> {
    let mut before = List::new(alloc);
    for item in 0..2000u32 {
        before.push((item, bins_of(item).1))?;
    }
    Ok(before)
}

/// What comes of the ring of this limit.
fn ring_judged(alloc: Global, limit: u32) -> Result<(Verdict, Work, bool), AllocError> {
    match ring(alloc, limit) {
        Ok(instance) => judged(alloc, &instance, None),
        Err(_) => Err(AllocError),
    }
}

#[test]
fn searches_no_more_than_it_must(rt: HostRuntime) -> Result<(), Fail> {
    let (roomy, done, _) = ring_judged(rt.alloc(), 100)?;
    assert!(rt; roomy == best(2000, 0) && done.searches == 0);
    assert!(rt; ring_judged(rt.alloc(), 99)? == (best(1980, 20), work(20, 39), true));
    Ok(())
}
