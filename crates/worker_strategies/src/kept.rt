// The test that goes on in the next round, if that has the same job.
use clause_store::Budget;
use worker_jobs::Job;

/// A test that was paused.
#[derive(Drop)]
pub struct Kept {
    /// The job of the test.
    pub job: Job,
    /// Its budget, with what was counted.
    pub budget: Budget,
}

/// How a round begins.
#[derive(Drop)]
pub struct Begun {
    /// Whether the kept test goes on.
    pub goes_on: bool,
    /// The budget: that of the kept test, or a fresh one.
    pub budget: Budget,
}
