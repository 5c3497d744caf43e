//! Which targets are live, by marks.
ghost use Rattle.std.specs.Prelude.{◌≡◌, ◌&&◌, ◌≤◌, not, length, slice_set, IfOk, true};
ghost use Rattle.fleet.specs.Live.{chosen_below, count_below, is_in, is_listed, is_listed_in, mark_at, AreMarks, AddsMarks};

use lists::List;
use std::alloc::{AllocError, Global};

/// The live targets of so many known ones, in order of number.
pub(crate) fn live_numbers(
    alloc: Global,
    listed: &[List<List<usize>>],
    known: usize,
) -> Result<Vec<usize>, AllocError>
    ensures { IfOk result (λ v. v.items ≡ chosen_below (is_listed listed.now) known) }
{
    let marks = listed_marks(alloc, listed, known)?;
    let numbers = chosen(alloc, marks.as_slice())?;
    Ok(numbers)
}

/// Which of the known targets a source lists.
pub(crate) fn listed_marks(
    alloc: Global,
    listed: &[List<List<usize>>],
    known: usize,
) -> Result<Vec<bool>, AllocError>
    ensures each { IfOk result (λ v. length v.items ≡ known) }
    ensures marks { IfOk result (λ v. AreMarks (is_listed listed.now) v.items) }
{
    let mut marks = vec![in alloc; false; known]?;
    mark_listed(marks.as_mut_slice(), listed);
    Ok(marks)
}

/// Which of the known targets the list has.
pub(crate) fn number_marks(
    alloc: Global,
    numbers: &[usize],
    known: usize,
) -> Result<Vec<bool>, AllocError>
    ensures each { IfOk result (λ v. length v.items ≡ known) }
    ensures marks { IfOk result (λ v. AreMarks (is_in numbers.now) v.items) }
{
    let mut marks = vec![in alloc; false; known]?;
    mark_numbers(marks.as_mut_slice(), numbers);
    Ok(marks)
}

fn mark_listed(marks: &mut [bool], listed: &[List<List<usize>>])
    ensures { AddsMarks (is_listed listed.now) marks.old marks.new }
{
    for sources in listed {
        mark_sources(marks, sources.as_slice());
    }
}

fn mark_sources(marks: &mut [bool], sources: &[List<usize>])
    ensures { AddsMarks (is_listed_in sources.now) marks.old marks.new }
{
    for numbers in sources {
        mark_numbers(marks, numbers.as_slice());
    }
}

fn mark_numbers(marks: &mut [bool], numbers: &[usize])
    ensures { AddsMarks (is_in numbers.now) marks.old marks.new }
{
    for number in numbers {
        mark(marks, *number);
    }
}

/// Marks a number. One past the last is left out.
fn mark(marks: &mut [bool], number: usize)
    ensures { marks.new ≡ slice_set marks.old number true }
{
    if number < marks.len() {
        marks[number] = true;
    }
}

/// The numbers that are marked, in ascending order.
pub(crate) fn chosen(alloc: Global, marks: &[bool]) -> Result<Vec<usize>, AllocError>
    ensures { IfOk result (λ v. v.items ≡ chosen_below (mark_at marks.now) (length marks.now)) }
{
    let mut numbers = Vec::new(alloc);
    for n in 0..marks.len() {
        if marks[n] {
            numbers.push(n)?;
        }
    }
    Ok(numbers)
}

/// How many numbers are marked.
pub(crate) fn count_marks(marks: &[bool]) -> usize
    ensures { result ≡ count_below (mark_at marks.now) (length marks.now) }
{
    let mut count = 0;
    for n in 0..marks.len() {
        if marks[n] {
            count += 1;
        }
    }
    count
}

/// How many numbers are marked here and not there.
pub(crate) fn count_only(these: &[bool], those: &[bool]) -> usize
    requires { length those.now ≡ length these.now }
    ensures count { result ≡ count_below (λ n. mark_at these.now n && not (mark_at those.now n)) (length these.now) }
    ensures most { result ≤ length these.now }
{
    let mut count = 0;
    for n in 0..these.len() {
        if these[n] && !those[n] {
            count += 1;
        }
    }
    count
}
