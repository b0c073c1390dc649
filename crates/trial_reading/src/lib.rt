//! Trials of reading and writing: the edges, numbers, lines, texts and whole runs, and the reader
//! against a second, plain reader of the same format. It has tests alone.
#![tactic(auto)]

#[cfg(test)]
mod trials;
