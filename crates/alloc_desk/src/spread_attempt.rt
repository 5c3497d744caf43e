//! What a reallocation that makes loads even comes to.
ghost use Rattle.std.specs.Prelude.{◌≡◌, IsTrue};
ghost use Rattle.allocation_core.specs.Answers.{is_spread_answer};
ghost use Rattle.alloc_desk.specs.Spreading.{spread_attempted_by};

use allocation_core::{Answer, Refusal};
use fleet_events::AllocationNumber;
use spread_certificate::SpreadFault;

/// Why a reallocation that makes loads even did not end.
#[derive(Clone, Copy, PartialEq, Eq)]
pub enum SpreadError {
    /// The journal has its most entries.
    JournalFull,
    /// No memory was left.
    Memory,
    /// The last number of an allocation is given.
    NumbersSpent,
    /// Each spread was refused, because other events came between its search and its Spread; this is why the last one was. None
    /// where nothing was tried.
    Overtaken(Option<SpreadFault>),
}

/// What one attempt came to.
#[derive(Clone, Copy)]
pub(crate) enum SpreadAttempt {
    Published(AllocationNumber),
    Unchanged(AllocationNumber),
    NumbersSpent,
    Lost(SpreadFault),
}

/// What the answer to its Spread says of an attempt.
pub(crate) fn spread_attempted(answer: &Answer) -> SpreadAttempt
    requires { IsTrue (is_spread_answer answer.now) }
    ensures { result ≡ spread_attempted_by answer.now }
{
    match answer {
        Answer::Published(number) => SpreadAttempt::Published(*number),
        Answer::Not(Refusal::Unchanged(number)) => SpreadAttempt::Unchanged(*number),
        Answer::Not(Refusal::RefusedSpread(fault)) => SpreadAttempt::Lost(*fault),
        _ => SpreadAttempt::NumbersSpent,
    }
}
