/// What is known of a candidate.
#[derive(Debug, Drop, Clone, Copy, PartialEq, Eq)]
pub enum Settled {
    /// It is a consequence.
    Inside,
    /// It isn't one.
    Outside,
    /// Neither was known when its two words were looked at.
    Not,
}
