//! Why the document of a session is not read.
use std::alloc::AllocError;

/// Why a document says no session.
#[derive(Clone, Copy, Debug, PartialEq, Eq)]
pub enum SessionError {
    NotJson,
    /// It is JSON, and no session.
    Shape,
    Memory,
}

impl From<AllocError> for SessionError {
    ghost use Rattle.std.specs.Prelude.{◌≡◌};
    ghost use Rattle.session.specs.declared.error.SessionError.TheVariants.{Memory};

    ghost from_gives = { λ _ e. e ≡ Memory };

    fn from(_refused: AllocError) -> SessionError {
        SessionError::Memory
    }
}
