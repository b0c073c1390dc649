//! Whether a set that keeps the rules of its reduct is minimal: a second search, among its parts.
#![tactic(auto)]

mod answer;
mod part;
mod testing;
mod theory;

pub use answer::Minimality;
pub use testing::smaller;
