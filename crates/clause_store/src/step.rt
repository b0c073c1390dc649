use crate::{ClauseRef, Lit};

/// One assignment of a trail.
#[derive(Debug, Drop, Clone, Copy, PartialEq, Eq)]
pub struct Step {
    /// The literal that became true.
    pub lit: Lit,
    /// The clause that forced it. None is a decision.
    pub reason: Option<ClauseRef>,
    /// The number of decisions up to here.
    pub level: u32,
}
