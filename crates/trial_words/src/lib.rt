//! Trials of the words of a call. It has tests alone.
#![tactic(auto)]

#[cfg(test)]
mod trials;
