/// What a propagator beyond clauses says: nothing, or that it wrote a clause.
#[derive(Debug, Drop, Clone, Copy, PartialEq, Eq)]
pub enum Says {
    /// There is no clause to give.
    Quiet,
    /// A clause was written.
    Clause,
}

/// A clause of one to three literals by their codes, with zeros after them.
#[derive(Debug, Drop, Clone, Copy, PartialEq, Eq)]
pub struct Short {
    /// The codes.
    pub lits: [u32; 3],
}
