ghost use Rattle.std.specs.Prelude.{◌≡◌};
ghost use Rattle.rule_normaliser.specs.declared.error.NormalError.TheVariants.{NoMemory};

use std::alloc::AllocError;
use thiserror::Error;

/// Why a program has no normal form here.
#[derive(Clone, Copy, Debug, PartialEq, Eq, Error)]
pub enum NormalError {
    /// It would have more variables than allowed, and this is their number.
    #[error("the program has {0} variables")]
    TooManyVariables(u64),
    /// Memory ran out.
    #[error("memory ran out")]
    NoMemory,
}

impl From<AllocError> for NormalError {
    ghost from_gives = { λ _ e. e ≡ NoMemory };

    fn from(_: AllocError) -> NormalError {
        NormalError::NoMemory
    }
}
