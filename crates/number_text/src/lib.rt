//! Numbers in decimal, written to a sink.
#![tactic(auto)]

mod writing;

pub use writing::{write_number, write_number_after, write_number_ended};
