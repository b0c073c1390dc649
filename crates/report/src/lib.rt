//! The lines of a report: what they are, what they say, and how they are written.
#![tactic(auto)]

mod lines;
mod writing;

pub use lines::{Line, Why};
pub use writing::write_line;
