//! Trials of testers that are opened over a completed store, or after another tester, or that are
//! told what to decide first: they answer as one that is opened afresh. It has tests alone.
#![tactic(auto)]

#[cfg(test)]
mod trials;
