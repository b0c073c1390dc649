//! Which lists of clauses are lists of units, by the definition and with no thought for time: unit
//! propagation goes over all clauses again for each literal. Other crates test against it.
#![tactic(auto)]

mod propagation;
mod unit_lists;

pub use propagation::{closure, refutes};
pub use unit_lists::{absorbs, are_units};
