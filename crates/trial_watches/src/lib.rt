//! Trials of propagation by watched literals: how many clauses it looks at. It has tests alone.
#![tactic(auto)]

#[cfg(test)]
mod trials;
