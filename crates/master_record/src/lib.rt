//! The record of a run: which candidates are settled, what each worker does, and how far the run has
//! come.
#![tactic(auto)]

mod answers;
mod candidates;
mod giving;
mod going;
mod jobs;
mod laws;
mod master;
mod merging;
mod own;
mod settling;
mod spending;
mod verdict;
mod verdicts;
mod worker;

pub use laws::{lines_are_told, lines_are_true, records_are_kept, records_go_on, reports_end};
pub use master::Master;
pub use own::OwnTest;
pub use verdict::Verdict;
