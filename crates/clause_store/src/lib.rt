//! Clauses and the trail: literals, clause lists, a store of clauses that only grows, the trail of
//! assignments, and a budget of counted clauses.
#![tactic(auto)]

mod budget;
mod clause;
mod clause_arrays;
pub mod laws;
mod literal;
mod step;
mod store;
mod theory_says;
mod trail;

pub use budget::Budget;
pub use clause::{Clause, Units};
pub use literal::{ClauseRef, Lit, Value, Var};
pub use step::Step;
pub use store::Store;
pub use theory_says::{Says, Short};
pub use trail::Trail;
