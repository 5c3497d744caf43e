//! Searching in rows that ascend by target.
ghost use Rattle.std.specs.Prelude.{◌≡◌, ◌==◌, if◌then◌else◌, ◌<◌, ◌≤◌, ◌+◌, ◌++◌, ◌∷◌, [], ℕ, All, AllPairs, IfOk, MatchOption, None, OnOk, OnErr, length, max, slice_index_or};
ghost use Rattle.handover.specs.Handover.{targets_of};
ghost use Rattle.handover.specs.Spans.{holder_at, spans_of, room_of, pairs_from, lists_of, closed, opened, changed, is_beside, without, AreRows, IsKept, IsSince};

use crate::holders::LAST_NUMBER;
use crate::spans::Spans;
use std::alloc::{AllocError, Global};

/// The first place from one on at which the target is not below this one.
fn place_from(pairs: &[(u32, u32)], from: usize, target: u32) -> usize
    requires { from ≤ length pairs.now }
    ensures forth { from ≤ result }
    ensures bound { result ≤ length pairs.now }
    ensures passed { (k : ℕ) → from ≤ k → k < result → (slice_index_or pairs.now k (0, 0)).0 < target }
    ensures reached { result < length pairs.now → target ≤ (slice_index_or pairs.now result (0, 0)).0 }
{
    let mut place = from;
    while place < pairs.len() && pairs[place].0 < target {
        place += 1;
    }
    place
}

/// Whether a pair stands at the first place at which the target is not below the pair's.
fn stands_at(pairs: &[(u32, u32)], place: usize, pair: (u32, u32)) -> bool
    requires ascending { AllPairs (λ (a b : ℕ × ℕ). a.0 < b.0) pairs.now }
    requires bound { place ≤ length pairs.now }
    requires passed { (k : ℕ) → k < place → (slice_index_or pairs.now k (0, 0)).0 < pair.0 }
    requires reached { place < length pairs.now → pair.0 ≤ (slice_index_or pairs.now place (0, 0)).0 }
    ensures { result ≡ is_beside pairs.now pair.0 pair.1 }
{
    if place >= pairs.len() {
        return false;
    }
    pairs[place].0 == pair.0 && pairs[place].1 == pair.1
}

/// The pairs that the others lack. Both are in order of target.
fn without(
    alloc: Global,
    others: &[(u32, u32)],
    pairs: &[(u32, u32)],
) -> Result<Vec<(u32, u32)>, AllocError>
    requires others { AllPairs (λ (a b : ℕ × ℕ). a.0 < b.0) others.now }
    requires pairs { AllPairs (λ (a b : ℕ × ℕ). a.0 < b.0) pairs.now }
    ensures { IfOk result (λ v. v.items ≡ without others.now pairs.now) }
{
    let mut lacking = Vec::new(alloc);
    let mut place = 0;
    for pair in pairs {
        place = place_from(others, place, pair.0);
        if !stands_at(others, place, *pair) {
            lacking.push(*pair)?;
        }
    }
    Ok(lacking)
}

/// Makes rows without spans, until there are so many.
fn grow(alloc: Global, rows: &mut Vec<Spans>, len: usize) -> Result<(), AllocError>
    ensures long { OnOk result (len ≤ length rows.new.items) }
    ensures most { length rows.new.items ≤ max (length rows.old.items) len }
    ensures spans { (k : ℕ) → spans_of rows.new.items k ≡ spans_of rows.old.items k }
    ensures room { (k : ℕ) → room_of rows.old.items k ≤ room_of rows.new.items k }
{
    while rows.len() < len {
        rows.push(Spans::new(alloc))?;
    }
    Ok(())
}

/// Makes room for one span more of a target.
fn reserve(alloc: Global, rows: &mut Vec<Spans>, target: u32) -> Result<(), AllocError>
    requires { length rows.old.items ≤ 4294967296 }
    ensures room { OnOk result (0 < room_of rows.new.items target) }
    ensures most { length rows.new.items ≤ 4294967296 }
    ensures spans { (k : ℕ) → spans_of rows.new.items k ≡ spans_of rows.old.items k }
    ensures kept { (k : ℕ) → room_of rows.old.items k ≤ room_of rows.new.items k }
{
    let row = target as usize;
    grow(alloc, rows, row + 1)?;
    rows[row].reserve()
}

/// Makes room for one span more of each pair's target.
fn reserve_all(alloc: Global, rows: &mut Vec<Spans>, pairs: &[(u32, u32)]) -> Result<(), AllocError>
    requires { length rows.old.items ≤ 4294967296 }
    ensures room { OnOk result (All (λ (q : ℕ × ℕ). 0 < room_of rows.new.items q.0) pairs.now) }
    ensures most { length rows.new.items ≤ 4294967296 }
    ensures spans { (k : ℕ) → spans_of rows.new.items k ≡ spans_of rows.old.items k }
{
    for pair in pairs {
        reserve(alloc, rows, pair.0)?;
    }
    Ok(())
}

/// Ends the open span of a target with a number.
fn close(rows: &mut Vec<Spans>, target: u32, number: u32)
    ensures spans { (k : ℕ) → spans_of rows.new.items k ≡ (if target == k then closed number (spans_of rows.old.items k) else spans_of rows.old.items k) }
    ensures room { (k : ℕ) → room_of rows.new.items k ≡ room_of rows.old.items k }
    ensures len { length rows.new.items ≡ length rows.old.items }
{
    if let Some(row) = rows.get_mut(target as usize) {
        row.close(number);
    }
}

/// Ends the open spans of the pairs' targets with a number.
fn close_all(rows: &mut Vec<Spans>, pairs: &[(u32, u32)], number: u32)
    ensures spans { (k : ℕ) → spans_of rows.new.items k ≡ changed (λ (_ : ℕ). closed number) pairs.now k (spans_of rows.old.items k) }
    ensures room { (k : ℕ) → room_of rows.new.items k ≡ room_of rows.old.items k }
    ensures len { length rows.new.items ≡ length rows.old.items }
{
    for pair in pairs {
        close(rows, pair.0, number);
    }
}

/// Opens a span of each pair from a number on, in room that is there.
fn open_all(rows: &mut Vec<Spans>, pairs: &[(u32, u32)], number: u32)
    requires ascending { AllPairs (λ (a b : ℕ × ℕ). a.0 < b.0) pairs.now }
    requires room { All (λ (q : ℕ × ℕ). 0 < room_of rows.old.items q.0) pairs.now }
    ensures spans { (k : ℕ) → spans_of rows.new.items k ≡ changed (opened number) pairs.now k (spans_of rows.old.items k) }
    ensures len { length rows.new.items ≡ length rows.old.items }
{
    for pair in pairs {
        rows[pair.0 as usize].open(number, pair.1);
    }
}

/// The rows once a list of pairs follows the current one, which has this number. Where it fails, all lists are as
/// before.
pub(crate) fn follow(
    alloc: Global,
    rows: &mut Vec<Spans>,
    current: &[(u32, u32)],
    number: u32,
    pairs: &[(u32, u32)],
) -> Result<(), AllocError>
    requires kept { IsKept number current.now rows.old.items }
    requires ascending { AllPairs (λ (a b : ℕ × ℕ). a.0 < b.0) pairs.now }
    requires numbers { number + 1 ≤ LAST_NUMBER }
    ensures kept { OnOk result (IsKept (number + 1) pairs.now rows.new.items) }
    ensures lists { OnOk result (lists_of rows.new.items (number + 1) ≡ lists_of rows.old.items number ++ pairs.now ∷ []) }
    ensures err_kept { OnErr result (IsKept number current.now rows.new.items) }
    ensures err_lists { OnErr result (lists_of rows.new.items number ≡ lists_of rows.old.items number) }
{
    let dropped = without(alloc, pairs, current)?;
    let added = without(alloc, current, pairs)?;
    reserve_all(alloc, rows, added.as_slice())?;
    close_all(rows, dropped.as_slice(), number);
    open_all(rows, added.as_slice(), number + 1);
    Ok(())
}

/// The holder of a target at a number.
pub(crate) fn holder_at(rows: &[Spans], number: u32, target: u32) -> Option<u32>
    requires { (current : ℕ) × AreRows current rows.now }
    ensures { result ≡ holder_at (spans_of rows.now target) number }
{
    match rows.get(target as usize) {
        Some(row) => row.holder(number),
        None => None,
    }
}

/// From which number on the holder of a target at a number has been it without a break.
pub(crate) fn since_at(rows: &[Spans], number: u32, target: u32) -> Option<u32>
    requires { (current : ℕ) × AreRows current rows.now }
    ensures { MatchOption result (holder_at (spans_of rows.now target) number ≡ None) (λ first. IsSince (spans_of rows.now target) number first) }
{
    match rows.get(target as usize) {
        Some(row) => row.since(number),
        None => None,
    }
}

/// The targets that a collector held at a number.
pub(crate) fn held_at(
    alloc: Global,
    rows: &[Spans],
    number: u32,
    collector: u32,
) -> Result<Vec<u32>, AllocError>
    requires spans { (current : ℕ) × AreRows current rows.now }
    requires most { length rows.now ≤ 4294967296 }
    ensures { IfOk result (λ v. v.items ≡ targets_of (pairs_from rows.now 0 number) collector) }
{
    let mut held = Vec::new(alloc);
    for (target, row) in rows.iter().enumerate() {
        if row.holder(number) == Some(collector) {
            held.push(target as u32)?;
        }
    }
    Ok(held)
}

/// The targets beside a collector.
pub(crate) fn targets_of(
    alloc: Global,
    pairs: &[(u32, u32)],
    collector: u32,
) -> Result<Vec<u32>, AllocError>
    ensures { IfOk result (λ v. v.items ≡ targets_of pairs.now collector) }
{
    pairs
        .iter()
        .filter(|pair| pair.1 == collector)
        .map(|pair| pair.0)
        .collect(alloc)
}
