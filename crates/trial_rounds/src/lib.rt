//! Trials of whole runs: a record and its worker in rounds, and reports on random programs beside
//! the definition. It has tests alone.
#![tactic(auto)]

#[cfg(test)]
mod trials;
