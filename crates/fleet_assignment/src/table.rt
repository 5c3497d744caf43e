//! Tables by number, filled from lists of pairs.
ghost use Rattle.std.specs.Prelude.{◌≡◌, ◌<◌, None, Some, length, IfOk};
ghost use Rattle.fleet_assignment.specs.Tables.{ArePlaced, PlacesAll, SetsPlace};

use std::alloc::{AllocError, Global};

/// For each number below the count what stands beside it, the first where there are several.
pub(crate) fn placed(
    alloc: Global,
    count: usize,
    pairs: &[(u32, u32)],
) -> Result<Vec<Option<u32>>, AllocError>
    ensures each { IfOk result (λ v. length v.items ≡ count) }
    ensures placed { IfOk result (λ v. ArePlaced pairs.now v.items) }
{
    let mut places = vec![in alloc; None; count]?;
    place_all(places.as_mut_slice(), pairs);
    Ok(places)
}

fn place_all(places: &mut [Option<u32>], pairs: &[(u32, u32)])
    ensures { PlacesAll pairs.now places.old places.new }
{
    for i in 0..pairs.len() {
        let (number, other) = pairs[i];
        place(places, number as usize, other);
    }
}

/// Puts what stands beside a number, where nothing stands there yet.
fn place(places: &mut [Option<u32>], number: usize, other: u32)
    ensures { SetsPlace number other places.old places.new }
{
    if number < places.len() && places[number].is_none() {
        places[number] = Some(other);
    }
}
