//! Trials of reading reports. It has tests alone.
#![tactic(auto)]

#[cfg(test)]
mod trials;
