//! The slots that are carried over.
ghost use Rattle.std.specs.Prelude.{◌≡◌, length, map, IfOk};
ghost use Rattle.fleet.specs.Live.{chosen_below, mark_at};
ghost use Rattle.served_lists.specs.Served.{slot_of};

use std::alloc::{AllocError, Global};

/// The slots of the targets that are marked.
pub(crate) fn marked_slots(
    alloc: Global,
    slots: &[u32],
    marks: &[bool],
) -> Result<Vec<u32>, AllocError>
    ensures { IfOk result (λ v. v.items ≡ map (slot_of slots.now) (chosen_below (mark_at marks.now) (length marks.now))) }
{
    let mut kept = Vec::new(alloc);
    for target in 0..marks.len() {
        if marks[target] {
            kept.push(slot_of(slots, target))?;
        }
    }
    Ok(kept)
}

/// The collector whose list has a target, 0 where none has.
pub(crate) fn slot_of(slots: &[u32], target: usize) -> u32
    ensures { result ≡ slot_of slots.now target }
{
    match slots.get(target) {
        Some(collector) => *collector,
        None => 0,
    }
}
