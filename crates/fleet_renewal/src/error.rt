//! Why a fleet is not renewed.
use std::alloc::AllocError;
use thiserror::Error;

/// Why a fleet is not renewed.
#[derive(Debug, Drop, Error)]
pub enum RenewError {
    /// A name is repeated or empty, or there are more than 1,024 jobs.
    #[error("a job's name is repeated or empty, or there are more than 1,024 jobs")]
    BadJobs,
    /// Jobs times live collectors are more than 16,384.
    #[error("jobs times live collectors are more than 16,384")]
    TooManyBins,
    #[error("no memory")]
    Memory,
}

impl From<AllocError> for RenewError {
    ghost use Rattle.std.specs.Prelude.{◌≡◌};
    ghost use Rattle.fleet_renewal.specs.declared.error.RenewError.TheVariants.{Memory};

    ghost from_gives = { λ _ e. e ≡ Memory };

    fn from(_error: AllocError) -> RenewError {
        RenewError::Memory
    }
}
