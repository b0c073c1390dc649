// The tests, by what they are about.
mod clauses;
mod decisions;
mod questions;
mod searcher;
mod silent;
