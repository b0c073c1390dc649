ghost use Rattle.std.specs.Prelude.{◌≡◌};
ghost use Rattle.pair_program.specs.declared.error.PairError.TheVariants.{NoMemory};

use std::alloc::AllocError;
use thiserror::Error;

/// Why a normal form has no pair program here.
#[derive(Clone, Copy, Debug, PartialEq, Eq, Error)]
pub enum PairError {
    /// A weight or the number of rules is more than the format can write.
    #[error("the pair program is too large")]
    TooLarge,
    /// Memory ran out.
    #[error("memory ran out")]
    NoMemory,
}

impl From<AllocError> for PairError {
    ghost from_gives = { λ _ e. e ≡ NoMemory };

    fn from(_: AllocError) -> PairError {
        PairError::NoMemory
    }
}
