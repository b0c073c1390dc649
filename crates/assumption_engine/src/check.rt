use clause_store::Units;
use ground_program::Set;

/// What a theory answers about a total assignment.
#[derive(Debug, Drop)]
pub enum Check {
    /// It is a model of the theory.
    Accept,
    /// It isn't, and a clause was written.
    Clause,
    /// The check learned as many clauses as it was allowed, within this set, and isn't decided.
    Spent {
        /// The set.
        set: Set,
        /// The clauses.
        units: Units,
    },
    /// Memory ran out.
    NoMemory,
}
