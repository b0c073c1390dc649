//! The clauses that hold in every answer set of a normal form.
#![tactic(auto)]

mod body_clauses;
mod completing;
mod draft;
mod laws;
mod rule_clauses;
mod short_clauses;
mod support_clauses;
mod within;

pub use completing::complete;
pub use laws::inner_clauses_mean_smaller_sets;
pub use normal_program::{
    base_clauses_are_entailed, base_clauses_are_over_atoms_and_bodies, base_clauses_make_models,
};
pub use within::complete_within;
