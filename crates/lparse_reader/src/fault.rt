// Why a text is refused.
ghost use Rattle.std.specs.Prelude.{◌≡◌};
ghost use Rattle.lparse_reader.specs.declared.fault.Stop.TheVariants.{NoMemory};

use std::alloc::AllocError;
use thiserror::Error;

/// What is wrong with a text.
#[derive(Clone, Copy, Debug, PartialEq, Eq)]
pub enum TextFault {
    /// A token is no number. The value is its first byte that isn't a digit.
    NotANumber,
    /// A kind of rule is none of the format. The value is the kind.
    UnknownKind,
    /// A rule minimizes. The value is 6, its kind.
    MinimizeRule,
    /// A head or a literal is 0. The value is 0.
    AtomZero,
    /// A number passes 2,147,483,647. The value is that of the digits up to the one that passes it.
    NumberTooLarge,
    /// There are more negatives than literals. The value is the number of negatives.
    NegativeCount,
    /// `B+` or `B-` is due. The value is 1 for `B+` and 2 for `B-`.
    MissingMark,
    /// `E` stands where the number of models is due. The value is 69, its byte.
    ExternalSection,
    /// An entry has no name. The value is its atom.
    NameMissing,
    /// A token is due and there is none. The value is the number of bytes.
    EndOfInput,
    /// A token follows the number of models. The value is its first byte.
    TrailingText,
}

/// Why no program was read.
#[derive(Clone, Copy, Debug, PartialEq, Eq, Error)]
pub enum ReadError {
    /// The first fault of the text, with the line of the token that it names.
    #[error("line {line}: {why:?}, {value}")]
    Text {
        why: TextFault,
        line: u32,
        value: u64,
    },
    /// The source has more bytes than a text may have.
    #[error("the input is too long")]
    TooLong,
    /// The source failed.
    #[error("the input could not be read")]
    ReadFault,
    /// Memory ran out.
    #[error("memory ran out")]
    NoMemory,
}

/// The first place from the left that isn't as the format says.
#[derive(Clone, Copy, Debug, PartialEq, Eq)]
pub enum Fault {
    /// A token is due and there is none.
    Ended,
    /// A token is wrong, and `left` bytes of the text are left from it on.
    At {
        why: TextFault,
        left: usize,
        value: u64,
    },
}

/// Why reading stopped.
#[derive(Clone, Copy, Debug, PartialEq, Eq)]
pub enum Stop {
    /// The text has a fault.
    Fault(Fault),
    /// Memory ran out.
    NoMemory,
}

impl From<AllocError> for Stop {
    ghost from_gives = { λ _ e. e ≡ NoMemory };

    fn from(_: AllocError) -> Stop {
        Stop::NoMemory
    }
}
