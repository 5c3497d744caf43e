//! Why a call on the holders changed nothing.
use std::alloc::AllocError;
use thiserror::Error;

/// Why a call changed nothing.
#[derive(Debug, Drop, Error)]
pub enum HoldersError {
    /// No allocation of that number is published.
    #[error("no allocation of that number is published")]
    UnknownNumber,
    /// The last number, 4,294,967,295, is given.
    #[error("the last number of an allocation, 4,294,967,295, is given")]
    NumbersSpent,
    #[error("no memory")]
    Memory,
}

impl From<AllocError> for HoldersError {
    ghost use Rattle.std.specs.Prelude.{◌≡◌};
    ghost use Rattle.handover.specs.declared.error.HoldersError.TheVariants.{Memory};

    ghost from_gives = { λ _ e. e ≡ Memory };

    fn from(_error: AllocError) -> HoldersError {
        HoldersError::Memory
    }
}
