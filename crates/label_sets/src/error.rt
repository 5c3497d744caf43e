//! Why a label is refused.
use std::alloc::{AllocError, AllocFailed};

/// Why a label is refused.
#[derive(Clone, Copy, PartialEq, Eq)]
pub enum LabelError {
    /// The text is no label name.
    BadLabelName,
    /// A growth was refused.
    Memory,
}

impl From<AllocError> for LabelError {
    ghost use Rattle.std.specs.Prelude.{◌≡◌};
    ghost use Rattle.label_sets.specs.declared.error.LabelError.TheVariants.{Memory};

    ghost from_gives = { λ _ e. e ≡ Memory };

    fn from(_error: AllocError) -> LabelError {
        LabelError::Memory
    }
}
