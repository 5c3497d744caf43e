//! Why rules are not read.
use crate::pattern::PatternError;
use std::alloc::AllocError;
use thiserror::Error;

/// Why a rule was not read.
#[derive(Clone, Copy, Debug, Drop, Error, PartialEq, Eq)]
pub enum RuleError {
    /// The rule or one of its members has another shape.
    #[error("another shape")]
    Shape,
    #[error("an unknown action")]
    UnknownAction,
    #[error("no target label")]
    NoTargetLabel,
    #[error("the modulus is 0")]
    ZeroModulus,
    /// The pattern does not read, or is too big once it is compiled.
    #[error("a bad pattern")]
    BadPattern,
    #[error("no memory")]
    Memory,
}

impl RuleError {
    ghost use Rattle.std.specs.Prelude.{◌≡◌};
    ghost use Rattle.relabel.specs.Names.{rule_error_name};

    /// Its name, as a refused rule is told by.
    pub fn name(self) -> &'static str
        ensures { result.now ≡ rule_error_name self }
    {
        match self {
            RuleError::Shape => "Shape",
            RuleError::UnknownAction => "UnknownAction",
            RuleError::NoTargetLabel => "NoTargetLabel",
            RuleError::ZeroModulus => "ZeroModulus",
            RuleError::BadPattern => "BadPattern",
            RuleError::Memory => "Memory",
        }
    }
}

impl From<AllocError> for RuleError {
    ghost use Rattle.std.specs.Prelude.{◌≡◌};
    ghost use Rattle.relabel.specs.declared.error.RuleError.TheVariants.{Memory};

    ghost from_gives = { λ _ e. e ≡ Memory };

    fn from(_refused: AllocError) -> RuleError {
        RuleError::Memory
    }
}

impl From<PatternError> for RuleError {
    ghost use Rattle.std.specs.Prelude.{◌≡◌};
    ghost use Rattle.relabel.specs.Compiling.{refused_as};

    ghost from_gives = { λ p e. e ≡ refused_as p };

    fn from(refused: PatternError) -> RuleError {
        match refused {
            PatternError::NoPattern => RuleError::BadPattern,
            PatternError::TooBig => RuleError::BadPattern,
            PatternError::Memory => RuleError::Memory,
        }
    }
}

/// Why a list of rules was not read.
#[derive(Clone, Copy, Debug, Drop, Error, PartialEq, Eq)]
#[error("rule {number}: {error}")]
pub struct RulesError {
    /// The number of the first rule that was refused. The first rule has the number 1.
    pub number: usize,
    pub error: RuleError,
}
