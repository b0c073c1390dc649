//! Trials of founding and of testers on small programs: the points at which founding is hard, and
//! random programs against the definition of an answer set. It has tests alone.
#![tactic(auto)]

#[cfg(test)]
mod trials;
