use clause_store::{ClauseRef, Lit};

/// What a turn has to do.
#[derive(Debug, Drop)]
pub enum Task {
    /// To learn from a clause that is false.
    Learn(ClauseRef),
    /// To take the clause that the theory gave.
    Take,
    /// To answer a core, since an assumed literal is false.
    Refuse(Lit),
    /// To make an unset literal true.
    Decide(Lit),
    /// To ask the theory about the total assignment.
    Check,
}
