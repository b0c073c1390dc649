use clause_store::Units;
use ground_program::{Broken, Set};

/// What became of a set that was offered.
#[derive(Debug, Drop)]
pub enum Offered {
    /// It is an answer set, and what it shows was reported.
    Taken,
    /// It is no model: this is the first rule that fails in it, or the first atom on which it misses
    /// the compute statement.
    Broken(Broken),
    /// It is a model, but this proper subset keeps the rules of its reduct.
    Smaller(Set),
    /// It is a model, and the budget was used up before it was known whether it is minimal. These
    /// are the clauses that were counted.
    Spent(Units),
    /// Memory ran out.
    NoMemory,
}
