// What is asked for, and what was measured.
use std::time::Duration;

/// How often each thing is done.
#[derive(Debug, Drop)]
pub struct Task {
    /// How many reads there are, alone and beside reports.
    pub reads: u32,
    /// How many rounds of reports of each candidate there are with no second thread, how many
    /// reports of the set, and how many reads that keep nothing.
    pub rounds: u32,
}

/// So many calls, and how long they took together.
#[derive(Debug, Drop, Clone, Copy)]
pub struct Calls {
    pub count: u64,
    pub took: Duration,
}

/// What was measured.
#[derive(Debug, Drop)]
pub struct Figures {
    pub candidates: u32,
    /// How many candidates the upper bound had before any report.
    pub before: usize,
    /// How many it had when all reports were learnt.
    pub after: usize,
    /// Reads of a client while nobody reports.
    pub alone: Calls,
    /// Reads of a client while a second thread reports.
    pub beside: Calls,
    /// The reports of that second thread, of one candidate each.
    pub against: Calls,
    /// Reports of one candidate each, with no second thread.
    pub reports: Calls,
    /// Reports of a set, with no second thread.
    pub sets: Calls,
    /// Reads by a seat that keeps nothing from read to read, with no second thread.
    pub whole: Calls,
}
