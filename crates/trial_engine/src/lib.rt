//! Trials of the search over a theory on small sets of clauses, against all assignments. It has
//! tests alone.
#![tactic(auto)]

#[cfg(test)]
mod trials;
