//! The epoch of a journal, in which the numbers that it gives mean what they mean.
ghost use Rattle.std.specs.Prelude.{◌≡◌, ◌≤◌, IfOk};
ghost use Rattle.durable_journal.specs.Epochs.{epoch_in, with_epoch as line_with_epoch};

use json_values::parse;
use std::alloc::{AllocError, Global};
use std::time::Clock;

/// What stands before the epoch.
const EPOCH: &[u8] = b",\"epoch\":";

/// A configuration's line, as `configuration_line` gives it, with the epoch of the journal that begins with it.
pub fn with_epoch(alloc: Global, line: &[u8], epoch: u64) -> Result<Vec<u8>, AllocError>
    ensures { IfOk result (λ v. v.items ≡ line_with_epoch line.now epoch) }
{
    let mut text = Vec::new(alloc);
    let digits = format!(in alloc; "{epoch}")?;
    text.extend_from_slice(&line[..line.len().saturating_sub(1)])?;
    text.extend_from_slice(EPOCH)?;
    text.extend_from_slice(digits.as_bytes())?;
    text.push(b'}')?;
    Ok(text)
}

/// The epoch of the journal with this first line, without its digest. One that was begun before there were epochs has none.
pub fn epoch_of(alloc: Global, line: &[u8]) -> Result<Option<u64>, AllocError>
    ensures { IfOk result (λ o. o ≡ epoch_in line.now) }
{
    match parse(alloc, line)? {
        Some(value) => match value.get("epoch") {
            Some(epoch) => Ok(epoch.as_u64()),
            None => Ok(None),
        },
        None => Ok(None),
    }
}

/// The epoch behind another: the time in milliseconds since 1970, or the next number where no clock tells a later time.
pub fn next_epoch<R: Clock>(rt: &R, last: u64) -> u64
    ensures { last ≤ result }
{
    let next = last.saturating_add(1);
    match rt.since_1970() {
        Ok(now) => match u64::try_from(now.as_millis()) {
            Ok(now) => next.max(now),
            Err(_) => next,
        },
        Err(_) => next,
    }
}
