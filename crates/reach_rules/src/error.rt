//! Why a name, a reach or limits are refused.
use std::alloc::AllocError;

/// Why a collector's name is refused.
#[derive(Clone, Copy, PartialEq, Eq)]
pub enum NameError {
    /// The text is empty or longer than 128 bytes.
    BadName,
    /// A growth was refused.
    Memory,
}

/// Why a reach is refused, or why own limits are.
#[derive(Debug, Clone, Copy, PartialEq, Eq)]
pub enum ReachError {
    /// The value is no list of rules, or no object of limits.
    Shape,
    /// There are more than 32 rules.
    TooManyRules,
    /// A growth was refused.
    Memory,
}

impl From<AllocError> for ReachError {
    ghost use Rattle.std.specs.Prelude.{◌≡◌};
    ghost use Rattle.reach_rules.specs.declared.error.ReachError.TheVariants.{Memory};

    ghost from_gives = { λ _ e. e ≡ Memory };

    fn from(_error: AllocError) -> ReachError {
        ReachError::Memory
    }
}
