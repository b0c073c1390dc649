// The lines of a report, one variant for each form of line.
use ground_program::Set;

/// Why a run was refused.
#[derive(Debug, Drop, Clone, Copy, PartialEq, Eq)]
pub enum Why {
    /// A number is due and its token has another byte.
    NotANumber,
    /// A kind of rule is due and its number is none.
    UnknownKind,
    /// The rule is a minimize rule.
    MinimizeRule,
    /// A head or a literal is 0.
    AtomZero,
    /// The number is greater than 2,147,483,647.
    NumberTooLarge,
    /// There are more negative literals than literals.
    NegativeCount,
    /// Another token stands where `B+` or `B-` is due.
    MissingMark,
    /// The section of external atoms begins.
    ExternalSection,
    /// An entry of the symbol table has no name.
    NameMissing,
    /// A token is due and the input ends.
    EndOfInput,
    /// A token follows the number of models.
    TrailingText,
    /// The input has more bytes than may be.
    TooLong,
    /// The source failed.
    ReadFault,
    /// The program needs more variables than there may be.
    TooManyVariables,
    /// The words of the call are none of those that are taken.
    Words,
}

/// One line of a report. Candidates, answer sets and watchers have numbers from 1.
#[derive(Debug, Drop)]
pub enum Line {
    /// An answer set.
    Answer {
        number: u32,
        set: Set,
    },
    /// The candidate is a consequence. `by` is the number of the answer set that shows it, or 0.
    SettledIn {
        cand: u32,
        by: u32,
    },
    /// The candidate is no consequence. `by` is the number of the answer set that shows it, or 0.
    SettledOut {
        cand: u32,
        by: u32,
    },
    /// The sizes of the two bounds that the lines so far make.
    Sizes {
        lower: u32,
        upper: u32,
    },
    /// The sizes of the two bounds that a watcher read last.
    Watch {
        watcher: u32,
        lower: u32,
        upper: u32,
    },
    /// The candidate isn't settled, and its own test spent so many units.
    Unsettled {
        cand: u32,
        units: u32,
    },
    /// No answer set is known, and the test for one spent so many units.
    Unknown {
        units: u32,
    },
    /// Every candidate is settled.
    Complete,
    /// Each test that is left was spent.
    Partial,
    /// There is no answer set.
    Incoherent,
    /// The run ended for want of memory.
    NoMemory,
    /// The words or the input are refused. `line` is 0 where no line of the input is named.
    Refused {
        line: u32,
        why: Why,
        value: u64,
    },
}
