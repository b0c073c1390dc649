// What a call is asked to do.
use ground_program::Mode;
use worker_jobs::Strategy;

/// How consequences are to be found.
#[derive(Debug, Drop, Clone, Copy, PartialEq, Eq)]
pub struct Settings {
    /// Which consequences are asked for.
    pub mode: Mode,
    /// How many workers look for them, 1 to 64.
    pub workers: u32,
    /// How many watchers read the bounds, 0 to 16.
    pub watch: u32,
    /// Which jobs the workers get.
    pub strategy: Strategy,
    /// How many clauses a test may count before it is given up, 1 to 1,000,000,000.
    pub budget: u32,
    /// How many of them in one round, 1 to 1,000,000.
    pub slice: u32,
}

/// What the words of a call order.
#[derive(Debug, Drop, Clone, Copy, PartialEq, Eq)]
pub enum Task {
    /// To find the consequences of the program that is read.
    Query(Settings),
}
