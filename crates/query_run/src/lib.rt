//! One query over one program: rounds of a worker, the lines of its report as they come, and the
//! verdict.
#![tactic(auto)]

mod answering;
mod ending;
mod rest;
mod rounds;
mod telling;
mod turning;

pub use answering::{Ended, answer_query};
