//! Weight bodies: what the sums of their weights force on a trail, one clause a call.
#![tactic(auto)]

mod build;
mod gathering;
mod look;
mod occurrences;
mod reason;
mod row;
mod settling;
mod side;
mod tally;
mod waiting;
mod weights;

pub use weights::Weights;
