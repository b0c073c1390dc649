//! What a search learns from its conflicts: a clause that the store implies, and which assumptions
//! can't be met together.
#![tactic(auto)]

mod analysis;
mod assumption_core;
pub mod laws;
mod learned;
mod marks;
mod minimisation;
mod walk;

pub use analysis::{analyse, greatest_level};
pub use assumption_core::final_core;
pub use learned::Learned;
