//! The parts of a row. A number that is none is 0.

/// What stands before the first ` | `, and what behind it.
pub(crate) fn first(text: &str) -> (&str, &str) {
    text.split_once(" | ").unwrap_or((text, ""))
}

/// A number, and what stands behind it.
pub(crate) fn number(text: &str) -> (u32, &str) {
    let (number, rest) = first(text);
    (number.parse().unwrap_or(0), rest)
}

/// A number of 64 bits, and what stands behind it.
pub(crate) fn large(text: &str) -> (u64, &str) {
    let (number, rest) = first(text);
    (number.parse().unwrap_or(0), rest)
}

/// A status, and what stands behind it.
pub(crate) fn status(text: &str) -> (u16, &str) {
    let (number, rest) = first(text);
    (number.parse().unwrap_or(0), rest)
}
