//! How a session ends.
ghost use Rattle.std.specs.Prelude.{◌≡◌};
ghost use Rattle.std.specs.IoError.{error_kind};
ghost use Rattle.session_command.specs.Ended.{fault_of, halt_of, unread_end};

use session::SessionError;
use session_rounds::SessionStop;
use std::alloc::AllocError;
use std::io;

/// How a session ended, with its lines.
#[derive(Clone, Copy, Debug, PartialEq, Eq)]
pub enum Ended {
    Done,
    /// Its last line says what was refused.
    Refused,
    /// The document is no JSON.
    NotJson,
    /// The document is JSON, and says no session.
    Shape,
}

/// Why a session has no end.
#[derive(Clone, Copy, Debug, PartialEq, Eq)]
pub enum Fault {
    Memory,
    /// A socket failed.
    Device,
}

/// Why a session does not go on.
#[derive(Drop)]
pub(crate) enum Halt {
    Stopped(SessionStop),
    /// A socket failed.
    Device,
}

impl From<AllocError> for Halt {
    ghost use Rattle.session_rounds.specs.declared.stop.SessionStop.TheVariants.{Memory};
    ghost use Rattle.session_command.specs.declared.ended.Halt.TheVariants.{Stopped};

    ghost from_gives = { λ _ halt. halt ≡ Stopped Memory };

    fn from(_refused: AllocError) -> Halt {
        Halt::Stopped(SessionStop::Memory)
    }
}

impl From<SessionStop> for Halt {
    ghost use Rattle.session_command.specs.declared.ended.Halt.TheVariants.{Stopped};

    ghost from_gives = { λ stop halt. halt ≡ Stopped stop };

    fn from(stop: SessionStop) -> Halt {
        Halt::Stopped(stop)
    }
}

impl From<io::Error> for Halt {
    ghost from_gives = { λ error halt. halt ≡ halt_of (error_kind error) };

    fn from(error: io::Error) -> Halt {
        match error.kind() {
            io::ErrorKind::OutOfMemory => Halt::Stopped(SessionStop::Memory),
            _ => Halt::Device,
        }
    }
}

impl From<AllocError> for Fault {
    ghost use Rattle.session_command.specs.declared.ended.Fault.TheVariants.{Memory};

    ghost from_gives = { λ _ fault. fault ≡ Memory };

    fn from(_refused: AllocError) -> Fault {
        Fault::Memory
    }
}

impl From<io::Error> for Fault {
    ghost from_gives = { λ error fault. fault ≡ fault_of (error_kind error) };

    fn from(error: io::Error) -> Fault {
        match error.kind() {
            io::ErrorKind::OutOfMemory => Fault::Memory,
            _ => Fault::Device,
        }
    }
}

/// How a session ends whose document is not read.
pub(crate) fn unread(error: SessionError) -> Result<Ended, Fault>
    ensures { result ≡ unread_end error }
{
    match error {
        SessionError::NotJson => Ok(Ended::NotJson),
        SessionError::Shape => Ok(Ended::Shape),
        SessionError::Memory => Err(Fault::Memory),
    }
}
