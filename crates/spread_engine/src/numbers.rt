//! Numbers by place, as the choosers of shifts keep them: a place past the last one is nowhere.
use std::alloc::{AllocError, Global};

/// No bin, no place, no collector.
pub(crate) const NONE: u32 = u32::MAX;

/// So many times the same number.
pub(crate) fn repeated(alloc: Global, number: u32, count: usize) -> Result<Vec<u32>, AllocError> {
    vec![in alloc; number; count]
}

/// The number at a place, `NONE` past the last one.
pub(crate) fn number_at(numbers: &[u32], place: u32) -> u32 {
    match numbers.get(place as usize) {
        Some(number) => *number,
        None => NONE,
    }
}

/// How many numbers there are.
pub(crate) fn count_of(numbers: &[u32]) -> u32 {
    u32::try_from(numbers.len()).unwrap_or(NONE)
}

pub(crate) fn put(numbers: &mut Vec<u32>, place: u32, number: u32) {
    if (place as usize) < numbers.len() {
        numbers[place as usize] = number;
    }
}

pub(crate) fn increase(numbers: &mut Vec<u32>, place: u32) {
    let number = number_at(numbers.as_slice(), place);
    put(numbers, place, number.saturating_add(1));
}

pub(crate) fn decrease(numbers: &mut Vec<u32>, place: u32) {
    let number = number_at(numbers.as_slice(), place);
    put(numbers, place, number.saturating_sub(1));
}

/// Whether a place is marked.
pub(crate) fn is_marked(marks: &[bool], place: u32) -> bool {
    match marks.get(place as usize) {
        Some(mark) => *mark,
        None => false,
    }
}

pub(crate) fn mark(marks: &mut Vec<bool>, place: u32) {
    if (place as usize) < marks.len() {
        marks[place as usize] = true;
    }
}
