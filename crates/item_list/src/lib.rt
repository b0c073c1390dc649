//! The one list type behind all lists of a program: a vector that contracts see as a plain list.
#![tactic(auto)]

mod compared;
mod copied;
mod list;

pub use copied::Copied;
pub use list::{List, NoMemory};
