//! Why a source lists nothing new.
use crate::reply::FetchFault;
use sd_documents::SdError;
use std::alloc::AllocError;
use thiserror::Error;

/// Why a source was not refreshed. What it listed before stays.
#[derive(Debug, Drop, Error)]
pub enum RefreshError {
    /// The job has no source of this number that is asked.
    #[error("no such source")]
    NoSource,
    /// Another status than 200.
    #[error("status {0}")]
    Status(u16),
    #[error("no JSON media type")]
    Media,
    /// The body is no list of target groups. It is never want of memory here.
    #[error("{0}")]
    Document(SdError),
    #[error("no answer")]
    Device,
    #[error("the answer is too long")]
    TooLong,
    #[error("no memory")]
    Memory,
}

impl RefreshError {
    ghost use Rattle.std.specs.Prelude.{◌≡◌};
    ghost use Rattle.http_get.specs.Discoveries.{refusal_name};

    /// The name of the refusal, without what it carries.
    pub fn name(&self) -> &'static str
        ensures { result.now ≡ refusal_name self.now }
    {
        match self {
            RefreshError::NoSource => "NoSource",
            RefreshError::Status(_) => "Status",
            RefreshError::Media => "Media",
            RefreshError::Document(_) => "Document",
            RefreshError::Device => "Device",
            RefreshError::TooLong => "TooLong",
            RefreshError::Memory => "Memory",
        }
    }
}

impl From<AllocError> for RefreshError {
    ghost use Rattle.std.specs.Prelude.{◌≡◌};
    ghost use Rattle.http_get.specs.declared.error.RefreshError.TheVariants.{Memory};

    ghost from_gives = { λ _ e. e ≡ Memory };

    fn from(_refused: AllocError) -> RefreshError {
        RefreshError::Memory
    }
}

impl From<FetchFault> for RefreshError {
    ghost use Rattle.std.specs.Prelude.{◌≡◌};
    ghost use Rattle.http_get.specs.Discoveries.{unanswered};

    ghost from_gives = { λ fault e. e ≡ unanswered fault };

    fn from(fault: FetchFault) -> RefreshError {
        match fault {
            FetchFault::Device => RefreshError::Device,
            FetchFault::TooLong => RefreshError::TooLong,
            FetchFault::Memory => RefreshError::Memory,
        }
    }
}
