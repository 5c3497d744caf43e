//! Events that would change nothing at a moment.
ghost use Rattle.std.specs.Prelude.{IfOk};
ghost use Rattle.alloc_desk.specs.Idle.{IsIdleAt};

use crate::record::Record;
use allocation_core::{Answer, Event};
use std::alloc::AllocError;

/// What an event is answered that would change nothing, behind how many entries of the journal.
pub(crate) fn idle(record: &Record, event: &Event) -> Result<Option<(u64, Answer)>, AllocError>
    ensures { IfOk result (IsIdleAt event.now record.now) }
{
    let entries = record.journal().len() as u64;
    match record.core().unchanged(event)? {
        Some(answer) => Ok(Some((entries, answer))),
        None => Ok(None),
    }
}
