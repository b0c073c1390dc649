//! The normal form of a program: each body once, its literals merged and ordered.
#![tactic(auto)]

mod error;
mod merging;
mod normalising;
mod numbering;

pub use error::NormalError;
pub use normal_program::{
    Bodies, BodyOf, MOST_VARIABLES, Normal, NormalRule, NormalRules, Part, Parts,
};
pub use normalising::normalise;
