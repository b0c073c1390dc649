//! Unit propagation: what the clauses of a store force on a trail, up to a fixpoint or to a clause
//! that is false.
#![tactic(auto)]

mod entry;
pub mod laws;
mod plain;
mod propagation;
mod standing;
mod watches;

pub use propagation::propagate;
pub use watches::Watches;
