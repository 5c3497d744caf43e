//! Why a document is refused.
use std::alloc::{AllocError, AllocFailed};

/// What a document has in another shape than it is to have.
#[derive(Clone, Copy, Debug, PartialEq, Eq)]
pub enum Part {
    /// An answer of Prometheus's API: none of a success, or no matrix.
    Answer,
    /// The labels of a series.
    Metric,
    /// The values of a series.
    Values,
    /// A group of a list.
    Group,
    /// A member of the state file.
    State,
}

/// Why a document is refused.
#[derive(Clone, Copy, Debug, PartialEq, Eq)]
pub enum DocumentError {
    NotJson,
    /// This has another shape.
    Shape(Part),
    Memory,
}

impl From<AllocError> for DocumentError {
    ghost use Rattle.std.specs.Prelude.{◌≡◌};
    ghost use Rattle.agent_documents.specs.declared.error.DocumentError.TheVariants.{Memory};

    ghost from_gives = { λ _ e. e ≡ Memory };

    fn from(_error: AllocError) -> DocumentError {
        DocumentError::Memory
    }
}

impl<T: Drop> From<AllocFailed<T>> for DocumentError {
    ghost use Rattle.std.specs.Prelude.{◌≡◌};
    ghost use Rattle.agent_documents.specs.declared.error.DocumentError.TheVariants.{Memory};

    ghost from_gives = { λ _ e. e ≡ Memory };

    fn from(_error: AllocFailed<T>) -> DocumentError {
        DocumentError::Memory
    }
}
