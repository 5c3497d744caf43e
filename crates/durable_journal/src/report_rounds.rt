//! Of how many of the last rounds a report is booked, as the first line of a journal says it.
ghost use Rattle.std.specs.Prelude.{◌≡◌, IfOk};
ghost use Rattle.durable_journal.specs.Rounds.{with_report_rounds as line_with_rounds};

use allocation_core::ReportRounds;
use std::alloc::{AllocError, Global};

/// What stands before the number.
const REPORT_ROUNDS: &[u8] = b",\"report_rounds\":";

/// A configuration's line, as `configuration_line` gives it, with the number of rounds of which the journal that begins with it books
/// reports.
pub fn with_report_rounds(
    alloc: Global,
    line: &[u8],
    report_rounds: ReportRounds,
) -> Result<Vec<u8>, AllocError>
    ensures { IfOk result (λ v. v.items ≡ line_with_rounds line.now report_rounds) }
{
    let mut text = Vec::new(alloc);
    let count = report_rounds.count();
    let digits = format!(in alloc; "{count}")?;
    text.extend_from_slice(&line[..line.len().saturating_sub(1)])?;
    text.extend_from_slice(REPORT_ROUNDS)?;
    text.extend_from_slice(digits.as_bytes())?;
    text.push(b'}')?;
    Ok(text)
}
