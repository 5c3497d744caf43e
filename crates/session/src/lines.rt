//! The lines that a session writes.
ghost use Rattle.std.specs.Prelude.{◌≡◌, IfOk, string_bytes};
ghost use Rattle.session.specs.Lines.{round_line as round_line_text, source_line as source_line_text, total_line as total_line_text};

use crate::sums::Sums;
use std::alloc::{AllocError, Global};

/// The line of a round, with what its turns come to together.
pub fn round_line(alloc: Global, round: u32, sums: &Sums) -> Result<String, AllocError>
    ensures { IfOk result (λ s. string_bytes s ≡ round_line_text round sums.now) }
{
    let Sums {
        booked,
        refused,
        samples,
    } = *sums;
    format!(in alloc; "round {round} booked {booked} refused {refused} samples {samples}\n")
}

/// The line of a source that was refused before the rounds, by the refusal's name.
pub fn source_line(alloc: Global, job: &str, source: u32, name: &str) -> Result<String, AllocError>
    ensures { IfOk result (λ s. string_bytes s ≡ source_line_text job.now source name.now) }
{
    format!(in alloc; "source {job} {source} {name}\n")
}

/// The line of all samples that were booked.
pub fn total_line(alloc: Global, total: u128) -> Result<String, AllocError>
    ensures { IfOk result (λ s. string_bytes s ≡ total_line_text total) }
{
    format!(in alloc; "total {total}\n")
}
