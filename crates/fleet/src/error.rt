//! Why no fleet is opened.
use std::alloc::AllocError;
use thiserror::Error;

/// Why no fleet is opened.
#[derive(Debug, Drop, Error)]
pub enum OpenError {
    /// A name is repeated or empty, or there are more than 1,024 jobs.
    #[error("a job's name is repeated or empty, or there are more than 1,024 jobs")]
    BadJobs,
    #[error("no memory")]
    Memory,
}

impl From<AllocError> for OpenError {
    ghost use Rattle.std.specs.Prelude.{◌≡◌};
    ghost use Rattle.fleet.specs.declared.error.OpenError.TheVariants.{Memory};

    ghost from_gives = { λ _ e. e ≡ Memory };

    fn from(_error: AllocError) -> OpenError {
        OpenError::Memory
    }
}

/// Why parts make no fleet.
#[derive(Clone, Copy, Debug, PartialEq, Eq, Drop, Error)]
pub enum PartsError {
    /// A job's name is repeated or empty, or there are more than 1,024 jobs.
    #[error("a job's name is repeated or empty, or there are more than 1,024 jobs")]
    BadJobs,
    /// There are more than 65,535 targets, or one is of no job.
    #[error("there are more than 65,535 targets, or one is of no job")]
    BadTargets,
    /// A job has not a list for each source, a list does not ascend or names another job's target, or more than 16,384 are live.
    #[error("the lists are not those of the jobs")]
    BadLists,
    /// There are too many collectors, a name is repeated, or numbers do not ascend or were not given.
    #[error("the collectors are none of a fleet")]
    BadCollectors,
    /// A target is there twice.
    #[error("a target is there twice")]
    RepeatedTarget,
    #[error("no memory")]
    Memory,
}

impl From<AllocError> for PartsError {
    ghost use Rattle.std.specs.Prelude.{◌≡◌};
    ghost use Rattle.fleet.specs.declared.error.PartsError.TheVariants.{Memory};

    ghost from_gives = { λ _ e. e ≡ Memory };

    fn from(_error: AllocError) -> PartsError {
        PartsError::Memory
    }
}
