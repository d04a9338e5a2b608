//! Why a question about rules has no answer.
use std::alloc::{AllocError, AllocFailed};
use std::error::Error;
use std::fmt;

/// Why a question about rules has no answer.
#[derive(Debug, Clone, Copy, Drop, PartialEq, Eq)]
pub enum RulesError {
    /// As many parts as the limit allows were looked at, and more are left: `too many parts`.
    TooManyParts,
    /// An allocation failed: `out of memory`.
    NoMemory,
}

impl fmt::Display for RulesError {
    ghost use Rattle.std.specs.Prelude.{Some};
    ghost use Rattle.cidr_rules.specs.Messages.{rules_message};

    ghost output = { λ e. Some (rules_message e) };

    fn fmt<W: fmt::Write>(&self, f: &mut fmt::Formatter<W>) -> fmt::Result {
        match self {
            RulesError::TooManyParts => f.write_str("too many parts"),
            RulesError::NoMemory => f.write_str("out of memory"),
        }
    }
}

impl Error for RulesError {}

impl From<AllocError> for RulesError {
    ghost use Rattle.std.specs.Prelude.{◌≡◌};
    ghost use Rattle.cidr_rules.specs.declared.errors.RulesError.TheVariants.{NoMemory};

    ghost from_gives = { λ _ e. e ≡ NoMemory };

    fn from(_e: AllocError) -> RulesError {
        RulesError::NoMemory
    }
}

impl<T: Drop> From<AllocFailed<T>> for RulesError {
    ghost use Rattle.std.specs.Prelude.{◌≡◌};
    ghost use Rattle.cidr_rules.specs.declared.errors.RulesError.TheVariants.{NoMemory};

    ghost from_gives = { λ _ e. e ≡ NoMemory };

    fn from(_e: AllocFailed<T>) -> RulesError {
        RulesError::NoMemory
    }
}
