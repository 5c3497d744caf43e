//! The name that may have been meant.
ghost use Rattle.std.specs.Prelude.{◌≡◌, map, IfOk, option_map};
ghost use Rattle.config_members.specs.Nearest.{distance, bound_of, nearest_from, nearest_name};

use crate::place::Place;
use std::alloc::{AllocError, Global};
use strsim::levenshtein;

/// The longest name that is compared, in bytes.
pub const LONGEST_NAME: usize = 64;
/// So many letters may be others, too many or too few.
pub const MOST_LETTERS: usize = 2;

/// The name of a place that is nearest to another name, and at most `MOST_LETTERS` letters from it; of several the first, those that
/// are read here before the others. A name of more than `LONGEST_NAME` bytes has none.
pub fn nearest(alloc: Global, place: Place, name: &str) -> Result<Option<&'static str>, AllocError>
    ensures { IfOk result (λ o. option_map (λ s. s.now) o ≡ nearest_name place name.now) }
{
    if name.len() > LONGEST_NAME {
        return Ok(None);
    }
    let best = nearest_among(alloc, None, place.names_read(), name)?;
    nearest_among(alloc, best, place.other_names(), name)
}

/// The best so far, or the first of these names that is nearer than it and all before.
fn nearest_among(
    alloc: Global,
    best: Option<&'static str>,
    names: &'static [&'static str],
    name: &str,
) -> Result<Option<&'static str>, AllocError>
    ensures { IfOk result (λ o. option_map (λ s. s.now) o ≡ nearest_from name.now (option_map (λ s. s.now) best.entry) (map (λ s. s.now) names.now)) }
{
    let mut best = best;
    for candidate in names {
        let so_far = bound(alloc, best, name)?;
        if levenshtein(alloc, name, *candidate)? < so_far {
            best = Some(*candidate);
        }
    }
    Ok(best)
}

/// A nearer name has a distance below this.
fn bound(alloc: Global, best: Option<&str>, name: &str) -> Result<usize, AllocError>
    ensures { IfOk result (λ d. d ≡ bound_of name.now (option_map (λ s. s.now) best.entry)) }
{
    match best {
        Some(best) => levenshtein(alloc, name, best),
        None => Ok(MOST_LETTERS + 1),
    }
}
