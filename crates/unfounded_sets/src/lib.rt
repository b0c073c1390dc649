//! Founding: which atoms rules can still derive on a trail, and loop clauses for those that none
//! can.
#![tactic(auto)]

mod firing;
mod founding;
mod growing;
mod grown;
mod hints;
mod keeping;
mod lists;
mod loops;
mod members;
mod places;
mod refounding;
mod shutting;
mod single;
mod sources;
mod tables;
mod unfounded;
mod updating;
mod values;
mod waiting;

pub use unfounded::{Found, Unfounded};
