//! Of how many of the last rounds a report is booked, as a member of a first line.
ghost use Rattle.std.specs.Prelude.{◌≡◌, IfOk};
ghost use Rattle.serde_json.specs.View.{view};
ghost use Rattle.core_history.specs.Rounds.{report_rounds_in as rounds_said};

use allocation_core::ReportRounds;
use json_values::FromJson;
use serde_json::Value;
use std::alloc::{AllocError, Global};

/// The number that a document says, 1 where it says none. Nothing where it says something else than a whole number from 1 to 64.
pub fn read_report_rounds(
    alloc: Global,
    document: &Value,
) -> Result<Option<ReportRounds>, AllocError>
    ensures { IfOk result (λ o. o ≡ rounds_said (view document.now)) }
{
    let Some(said) = document.get("report_rounds") else {
        return Ok(Some(ReportRounds::least()));
    };
    match FromJson::read(alloc, said)? {
        Some(count) => Ok(ReportRounds::read(count)),
        None => Ok(None),
    }
}
