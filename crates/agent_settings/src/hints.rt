//! The name that may have been meant.
use crate::members::Kind;
use std::alloc::{AllocError, Global};
use strsim::levenshtein;

/// The longest name that is compared, in bytes.
const LONGEST_NAME: usize = 64;

/// So many letters may be others, too many or too few.
const MOST_LETTERS: usize = 2;

/// The name of a kind of object that is nearest to another name, the first of several.
pub(crate) fn meant(
    alloc: Global,
    kind: Kind,
    name: &str,
) -> Result<Option<&'static str>, AllocError> {
    if name.len() > LONGEST_NAME {
        return Ok(None);
    }
    let mut best: Option<&'static str> = None;
    let mut letters = MOST_LETTERS + 1;
    for candidate in kind.names() {
        let others = levenshtein(alloc, name, *candidate)?;
        if others < letters {
            letters = others;
            best = Some(*candidate);
        }
    }
    Ok(best)
}
