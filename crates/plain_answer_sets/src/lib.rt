//! Which sets are answer sets, by the definition and with no thought for time: every subset is
//! tried. Other crates test what they compute against it.
#![tactic(auto)]

mod definition;
mod subsets;

pub use definition::is_answer_set;
