//! Why a history is refused.
use fleet::PartsError;
use std::alloc::AllocError;
use thiserror::Error;

/// Why a history is refused.
#[derive(Clone, Copy, Debug, PartialEq, Eq, Drop, Error)]
pub enum HistoryError {
    /// It is no JSON of a history's shape.
    #[error("no JSON of a history's shape")]
    Shape,
    /// The fleet's parts make none.
    #[error("{0}")]
    Fleet(PartsError),
    /// The allocation's targets do not ascend, or it names a target that is not known or a collector that is not live.
    #[error("the allocation is none of the fleet")]
    BadAllocation,
    /// The round is 0.
    #[error("the round is 0")]
    BadRound,
    /// The lists that were served last name more targets than are known, or a collector that never joined.
    #[error("the lists served are none of the fleet's")]
    BadServed,
    #[error("no memory")]
    Memory,
}

impl From<AllocError> for HistoryError {
    ghost use Rattle.std.specs.Prelude.{◌≡◌};
    ghost use Rattle.core_history.specs.declared.error.HistoryError.TheVariants.{Memory};

    ghost from_gives = { λ _ e. e ≡ Memory };

    fn from(_error: AllocError) -> HistoryError {
        HistoryError::Memory
    }
}

impl From<PartsError> for HistoryError {
    ghost use Rattle.std.specs.Prelude.{◌≡◌};
    ghost use Rattle.core_history.specs.History.{fleet_error};

    ghost from_gives = { λ fault e. e ≡ fleet_error fault };

    fn from(fault: PartsError) -> HistoryError {
        match fault {
            PartsError::BadJobs
            | PartsError::BadTargets
            | PartsError::BadLists
            | PartsError::BadCollectors
            | PartsError::RepeatedTarget => HistoryError::Fleet(fault),
            PartsError::Memory => HistoryError::Memory,
        }
    }
}
