//! Trials of normal forms, entailment, completion and propagation together, on small programs by
//! their texts. It has tests alone.
#![tactic(auto)]

#[cfg(test)]
mod trials;
