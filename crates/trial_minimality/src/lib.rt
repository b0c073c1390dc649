//! Trials of the test whether a set is minimal, on small programs: against all proper subsets. It
//! has tests alone.
#![tactic(auto)]

#[cfg(test)]
mod trials;
