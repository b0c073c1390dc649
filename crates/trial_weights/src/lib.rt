//! Trials of weight bodies on small programs by their texts: what is given against a plain check of
//! the four cases. It has tests alone.
#![tactic(auto)]

#[cfg(test)]
mod trials;
