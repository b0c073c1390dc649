//! What a search by conflicts stands on: clauses, the trail of assignments and the watches, kept
//! together so that they are always ready for propagation.
#![tactic(auto)]

mod attaching;
mod state;

pub use state::SearchState;
