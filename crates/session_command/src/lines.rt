//! The line of a session that is refused.
ghost use Rattle.std.specs.Prelude.{◌≡◌, IfOk, string_bytes};
ghost use Rattle.session_command.specs.Lines.{stop_line as stop_line_text};

use allocation_core::Answer;
use relabel::RulesError;
use session_rounds::SessionStop;
use std::alloc::{AllocError, Global};

/// The line of what stopped a session. Want of memory has none.
pub(crate) fn stop_line(alloc: Global, stop: &SessionStop) -> Result<String, AllocError>
    ensures { IfOk result (λ s. string_bytes s ≡ stop_line_text stop.now) }
{
    match stop {
        SessionStop::Refused(answer) => refused_line(alloc, answer),
        SessionStop::Rules(error) => rules_line(alloc, error),
        SessionStop::JournalFull => String::from_str(alloc, "refused JournalFull\n"),
        SessionStop::Memory => Err(AllocError),
    }
}

fn refused_line(alloc: Global, answer: &Answer) -> Result<String, AllocError>
    ensures { IfOk result (λ s. string_bytes s ≡ stop_line_text (SessionStop.Refused answer.now)) }
{
    let answer = answer.line(alloc)?;
    format!(in alloc; "refused {answer}\n")
}

fn rules_line(alloc: Global, error: &RulesError) -> Result<String, AllocError>
    ensures { IfOk result (λ s. string_bytes s ≡ stop_line_text (SessionStop.Rules error.now)) }
{
    let number = error.number;
    let name = error.error.name();
    format!(in alloc; "refused {number} {name}\n")
}
