//! What a source lists, and what a change of it comes to.
ghost use Rattle.std.specs.Prelude.{◌≡◌, ◌<◌, ◌≤◌, [], Ok, Err, drop, take, length, slice_index_or, IfOk, OnOk, OnErr};
ghost use Rattle.fleet.specs.KnownTarget.{known_with, numbers_of};
ghost use Rattle.fleet.specs.Live.{chosen_below, is_in, mark_at, with_list};
ghost use Rattle.fleet.specs.Changes.{IsChange, IsChangeFrom, kept_unless};
ghost use Rattle.fleet.specs.Reached.{rows_with};

use crate::known_target::KnownTarget;
use crate::limits::{MOST_KNOWN_TARGETS, MOST_LIVE_TARGETS};
use crate::live::{chosen, count_marks, count_only, listed_marks, number_marks};
use crate::outcome::ListRefusal;
use indexmap::IndexSet;
use label_sets::Target;
use lists::List;
use reach_rules::ReachTable;
use std::alloc::{AllocError, Global};
use std::mem;

/// A source of a job lists these targets, in place of those that it listed before. Where it fails or is refused, the
/// lists and the table stay, and the known targets gained some.
pub(crate) fn list(
    alloc: Global,
    known: &mut IndexSet<KnownTarget>,
    listed: &mut Vec<List<List<usize>>>,
    table: &mut ReachTable,
    job: usize,
    source: usize,
    targets: List<Target>,
) -> Result<Result<(u32, u32), ListRefusal>, AllocError>
    requires job { job < length listed.old.items }
    requires source { source < length (slice_index_or listed.old.items job []) }
    ensures known { OnOk result (known.new.keys ≡ known_with known.old.keys job targets) }
    ensures before { take (length known.old.keys) known.new.keys ≡ known.old.keys }
    ensures change { IfOk result (IsChange listed.old.items (with_list listed.old.items job source (chosen_below (is_in (numbers_of known.old.keys job targets)) (length (known_with known.old.keys job targets)))) (length (known_with known.old.keys job targets))) }
    ensures listed { IfOk result (λ r. listed.new.items ≡ kept_unless r listed.old.items (with_list listed.old.items job source (chosen_below (is_in (numbers_of known.old.keys job targets)) (length (known_with known.old.keys job targets))))) }
    ensures rows { IfOk result (λ r. table.new.rows ≡ kept_unless r table.old.rows (rows_with table.old.rows (drop (length known.old.keys) known.new.keys))) }
    ensures err { OnErr result (listed.new.items ≡ listed.old.items) }
    ensures rows_err { OnErr result (table.new.rows ≡ table.old.rows) }
{
    let count = known.len();
    let numbers = enter(alloc, known, job, targets)?;
    table.room(known.len() - count)?;
    let change = relist(alloc, listed, known.len(), job, source, numbers.as_slice())?;
    if change.is_ok() {
        appear(table, &known.as_slice()[count..]);
    }
    Ok(change)
}

/// Targets appear in the table, which has room for them.
fn appear(table: &mut ReachTable, more: &[KnownTarget])
    requires { length more.now ≤ table.old.spare }
    ensures { table.new.rows ≡ rows_with table.old.rows more.now }
{
    if table.appear(more).is_err() {
        unreachable!();
    }
}

/// Enters the targets of a job's list, and gives their numbers.
fn enter(
    alloc: Global,
    known: &mut IndexSet<KnownTarget>,
    job: usize,
    targets: List<Target>,
) -> Result<Vec<usize>, AllocError>
    ensures numbers { IfOk result (λ v. v.items ≡ numbers_of known.old.keys job targets) }
    ensures known { OnOk result (known.new.keys ≡ known_with known.old.keys job targets) }
    ensures before { take (length known.old.keys) known.new.keys ≡ known.old.keys }
{
    let mut numbers = Vec::new(alloc);
    for target in targets.into_vec() {
        let number = known.insert_full(KnownTarget { job, target })?.0;
        numbers.push(number)?;
    }
    Ok(numbers)
}

/// The source lists these numbers, unless too many targets were live or known then.
fn relist(
    alloc: Global,
    listed: &mut Vec<List<List<usize>>>,
    known: usize,
    job: usize,
    source: usize,
    numbers: &[usize],
) -> Result<Result<(u32, u32), ListRefusal>, AllocError>
    requires job { job < length listed.old.items }
    requires source { source < length (slice_index_or listed.old.items job []) }
    ensures change { IfOk result (IsChange listed.old.items (with_list listed.old.items job source (chosen_below (is_in numbers.now) known)) known) }
    ensures listed { IfOk result (λ r. listed.new.items ≡ kept_unless r listed.old.items (with_list listed.old.items job source (chosen_below (is_in numbers.now) known))) }
    ensures err { OnErr result (listed.new.items ≡ listed.old.items) }
{
    let list = ascending(alloc, numbers, known)?;
    let before = listed_marks(alloc, listed.as_slice(), known)?;
    let old = replace_list(alloc, listed, job, source, list);
    match change(alloc, before.as_slice(), listed.as_slice(), known) {
        Ok(Ok(counts)) => Ok(Ok(counts)),
        Ok(Err(refusal)) => {
            let _ = replace_list(alloc, listed, job, source, old);
            Ok(Err(refusal))
        }
        Err(error) => {
            let _ = replace_list(alloc, listed, job, source, old);
            Err(error)
        }
    }
}

/// The numbers in ascending order, each once.
fn ascending(alloc: Global, numbers: &[usize], known: usize) -> Result<List<usize>, AllocError>
    ensures { IfOk result (λ l. l ≡ chosen_below (is_in numbers.now) known) }
{
    let marks = number_marks(alloc, numbers, known)?;
    let list = chosen(alloc, marks.as_slice())?;
    Ok(List::from_vec(list))
}

/// Puts a list in the place of a source's, and gives that back. It takes no memory.
fn replace_list(
    alloc: Global,
    listed: &mut Vec<List<List<usize>>>,
    job: usize,
    source: usize,
    numbers: List<usize>,
) -> List<usize>
    requires job { job < length listed.old.items }
    requires source { source < length (slice_index_or listed.old.items job []) }
    ensures listed { listed.new.items ≡ with_list listed.old.items job source numbers }
    ensures before { result ≡ slice_index_or (slice_index_or listed.old.items job []) source [] }
{
    let sources = mem::replace(&mut listed[job], List::new(alloc));
    let mut lists = sources.into_vec();
    let before = mem::replace(&mut lists[source], numbers);
    listed[job] = List::from_vec(lists);
    before
}

/// What the change from the marked targets to the listed ones comes to.
fn change(
    alloc: Global,
    before: &[bool],
    listed: &[List<List<usize>>],
    known: usize,
) -> Result<Result<(u32, u32), ListRefusal>, AllocError>
    requires { length before.now ≡ known }
    ensures { IfOk result (IsChangeFrom (mark_at before.now) listed.now known) }
{
    let after = listed_marks(alloc, listed, known)?;
    let marks = after.as_slice();
    if count_marks(marks) > MOST_LIVE_TARGETS {
        return Ok(Err(ListRefusal::TooManyLive));
    }
    if known > MOST_KNOWN_TARGETS {
        return Ok(Err(ListRefusal::TooManyKnown));
    }
    let added = count_only(marks, before) as u32;
    let removed = count_only(before, marks) as u32;
    Ok(Ok((added, removed)))
}
