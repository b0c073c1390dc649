use clause_store::{Clause, Units};
use ground_program::Set;

/// What a test asks of an answer set.
#[derive(Debug, Drop)]
pub struct Asked {
    /// Literals that are all true.
    pub assume: Clause,
    /// Literals of which one at least is true, if they are there.
    pub any: Option<Clause>,
}

/// What no answer set meets.
#[derive(Debug, Drop)]
pub struct Core {
    /// Assumed literals.
    pub lits: Clause,
    /// Whether the disjunction belongs to it.
    pub any: bool,
}

/// What a test answers.
#[derive(Debug, Drop)]
pub enum Tested {
    /// An answer set that meets what was asked.
    Found(Set),
    /// No answer set meets this part of what was asked.
    Core(Core),
    /// As many clauses were counted as one call may, and the budget isn't used up.
    Paused,
    /// The budget is used up.
    Spent,
    /// The budget of the test of one answer set is used up.
    SpentInside {
        /// The set.
        set: Set,
        /// The clauses that its test learned.
        units: Units,
    },
    /// Memory ran out.
    NoMemory,
}
