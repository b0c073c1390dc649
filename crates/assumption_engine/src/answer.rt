use clause_store::{Clause, Units};
use ground_program::Set;

/// What an engine answers.
#[derive(Debug, Drop)]
pub enum Answer {
    /// The trail is a model that makes the assumed literals true.
    Model,
    /// No model makes all these assumed literals true.
    Core(Clause),
    /// The budget is used up.
    Spent,
    /// The theory's check of a total assignment is spent.
    SpentInside {
        /// The set within which it is.
        set: Set,
        /// The clauses that the check learned.
        units: Units,
    },
    /// As many clauses were counted as one call may, and the budget isn't used up.
    Paused,
    /// Memory ran out.
    NoMemory,
}

/// What one turn of a search does.
#[derive(Debug, Drop)]
pub enum Turn {
    /// There is more to do.
    Going,
    /// The search ended.
    Ended(Answer),
}
