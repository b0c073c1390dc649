//! Trials of the machine of events and of the shared board, on small programs, with a reader and a
//! reporter at once. It has tests alone.
#![tactic(auto)]

#[cfg(test)]
mod trials;
