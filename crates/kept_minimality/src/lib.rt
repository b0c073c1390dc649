//! Whether sets that keep the rules of their reducts are minimal: one search that is kept from one
//! set to the next, over the pairs of a set and a smaller one that keeps the reduct.
#![tactic(auto)]

mod asking;
mod assuming;
mod part;
mod smaller_sets;
mod theory;

pub use smaller_sets::SmallerSets;
