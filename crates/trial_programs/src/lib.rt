//! Trials of lists, ground programs, least models and the plain check of answer sets. It has tests
//! alone.
#![tactic(auto)]

#[cfg(test)]
mod trials;
