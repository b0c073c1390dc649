//! Unit propagation by watched literals: what the clauses of a store force on a trail, up to a
//! fixpoint or to a clause that is false.
#![tactic(auto)]

mod again;
mod chains;
mod choosing;
mod cursor;
mod entry;
mod laying;
mod left;
mod node_visit;
mod pending;
mod propagation;
mod run;
mod settled;
mod standing;
mod tables;
mod visit;
mod walk;
mod watches;

pub use propagation::propagate;
pub use watches::Watches;
