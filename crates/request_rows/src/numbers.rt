//! Numbers in a row. A text that is none is 0.

pub(crate) fn small(text: &str) -> u16 {
    text.parse().unwrap_or(0)
}

pub(crate) fn number(text: &str) -> u32 {
    text.parse().unwrap_or(0)
}

pub(crate) fn large(text: &str) -> u64 {
    text.parse().unwrap_or(0)
}

/// A number, if it is known.
pub(crate) fn known(text: &str) -> Option<u64> {
    if text == "-" {
        return None;
    }
    Some(large(text))
}

/// What stands before the first blank, and what behind it.
pub(crate) fn first_word(text: &str) -> (&str, &str) {
    text.split_once(' ').unwrap_or((text, ""))
}

/// What stands before the first ` | `, and what behind it.
pub(crate) fn first_part(text: &str) -> (&str, &str) {
    text.split_once(" | ").unwrap_or((text, ""))
}
