/// How far a run has come.
#[derive(Debug, Drop, Clone, Copy, PartialEq, Eq)]
pub enum Verdict {
    /// There is more to do.
    Running,
    /// An answer set was given and every candidate is settled.
    Complete,
    /// Each test that is left was spent.
    Partial,
    /// There is no answer set.
    Incoherent,
    /// Every worker ran out of memory.
    NoMemory,
}
