//! What trials of several crates begin with: programs by their texts and by random numbers, normal
//! forms, sets of atoms, and what holds in them. For tests alone.
#![tactic(auto)]

mod draws;
mod random_programs;
mod sets;
mod texts;

pub use draws::Draws;
pub use random_programs::{Recipe, random_program};
pub use sets::{body_holds, extension, has_true, is_true, set_of};
pub use texts::{clause_of, normal_of, program_of};
