//! Why a session ends before its last round.
ghost use Rattle.std.specs.Prelude.{◌≡◌};
ghost use Rattle.std.specs.Result.{result_err};
ghost use Rattle.session_rounds.specs.Stops.{search_stop};

use alloc_desk::{EnterError, ReallocateError};
use allocation_core::Answer;
use relabel::{RuleError, RulesError};
use std::alloc::AllocError;

/// Why a session ends before its last round.
#[derive(Drop)]
pub enum SessionStop {
    /// A Join or a Discover was refused before the rounds.
    Refused(Answer),
    /// A job's rules don't read. It is never want of memory here.
    Rules(RulesError),
    /// The journal has its most entries.
    JournalFull,
    Memory,
}

impl From<AllocError> for SessionStop {
    ghost use Rattle.std.specs.Prelude.{◌≡◌};
    ghost use Rattle.session_rounds.specs.declared.stop.SessionStop.TheVariants.{Memory};

    ghost from_gives = { λ _ e. e ≡ Memory };

    fn from(_refused: AllocError) -> SessionStop {
        SessionStop::Memory
    }
}

impl From<EnterError> for SessionStop {
    ghost use Rattle.std.specs.Prelude.{◌≡◌};
    ghost use Rattle.session_rounds.specs.Stops.{entering_stop};

    ghost from_gives = { λ e s. s ≡ entering_stop e };

    fn from(fault: EnterError) -> SessionStop {
        match fault {
            EnterError::JournalFull => SessionStop::JournalFull,
            EnterError::Memory => SessionStop::Memory,
        }
    }
}

impl From<RulesError> for SessionStop {
    ghost use Rattle.session_rounds.specs.Stops.{IsRulesStop};

    ghost from_gives = { λ e s. IsRulesStop e s };

    fn from(refused: RulesError) -> SessionStop {
        if refused.error == RuleError::Memory {
            return SessionStop::Memory;
        }
        SessionStop::Rules(refused)
    }
}

/// What ends the session of a reallocation that failed. One that was overtaken, and one without a number left, do not.
pub(crate) fn stop_of(fault: &ReallocateError) -> Result<(), SessionStop>
    ensures { result_err result ≡ search_stop fault.now }
{
    match fault {
        ReallocateError::JournalFull => Err(SessionStop::JournalFull),
        ReallocateError::Memory => Err(SessionStop::Memory),
        ReallocateError::NumbersSpent | ReallocateError::Overtaken(_) => Ok(()),
    }
}
