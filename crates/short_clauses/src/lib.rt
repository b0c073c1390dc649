//! Clauses of one to three literals, which actors tell each other: from the literals of a clause,
//! and back.
#![tactic(auto)]

mod making;
mod reading;

pub use making::short_of;
pub use reading::clause_of;
