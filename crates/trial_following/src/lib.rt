//! Trials of engines that decide in the order of another one, and as that one did last. It has
//! tests alone.
#![tactic(auto)]

#[cfg(test)]
mod trials;
