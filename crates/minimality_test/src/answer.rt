use ground_program::Set;

/// What the test whether a set is minimal answers.
#[derive(Debug, Drop)]
pub enum Minimality {
    /// No proper subset keeps the rules of the reduct by the set.
    Minimal,
    /// This proper subset keeps them. It has as many positions as the set, and position 0 is false.
    Smaller(Set),
    /// The budget is used up.
    Spent,
    /// Memory ran out.
    NoMemory,
}
