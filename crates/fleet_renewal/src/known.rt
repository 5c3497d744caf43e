//! The known targets that go on.
ghost use Rattle.std.specs.Prelude.{◌≡◌, length, IfOk};
ghost use Rattle.fleet.specs.Live.{mark_at};
ghost use Rattle.fleet_renewal.specs.Renewed.{moved, renewed_known};

use crate::survivors::place_at;
use fleet::KnownTarget;
use lists::Plain;
use std::alloc::{AllocError, Global};

/// The known targets that are marked, under the new places of their jobs.
pub(crate) fn renewed_known(
    alloc: Global,
    known: &[KnownTarget],
    places: &[Option<usize>],
    marks: &[bool],
) -> Result<Vec<KnownTarget>, AllocError>
    requires { length marks.now ≡ length known.now }
    ensures { IfOk result (λ v. v.items ≡ renewed_known known.now places.now (mark_at marks.now)) }
{
    let mut renewed = Vec::new(alloc);
    for number in 0..known.len() {
        if marks[number] {
            if let Some(target) = moved(&known[number], places)? {
                renewed.push(target)?;
            }
        }
    }
    Ok(renewed)
}

/// A known target under the new place of its job.
fn moved(known: &KnownTarget, places: &[Option<usize>]) -> Result<Option<KnownTarget>, AllocError>
    ensures { IfOk result (λ o. o ≡ moved places.now known.now) }
{
    match place_at(places, known.job) {
        None => Ok(None),
        Some(job) => {
            let target = known.target.copy()?;
            Ok(Some(KnownTarget { job, target }))
        }
    }
}
