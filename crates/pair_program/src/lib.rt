//! Pairs of a set and a proper subset of it that keeps the reduct, as the models of one program.
#![tactic(auto)]

mod atom_rules;
mod body_rules;
mod error;
mod head_rules;
mod pair_atoms;
mod pairing;
mod sizes;

pub use error::PairError;
pub use pairing::pairs_of;
