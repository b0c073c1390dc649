// What comes of the test of a job.
use clause_store::Units;
use ground_program::Set;
use worker_jobs::Gain;

/// What came of the test of a job.
#[derive(Drop)]
pub enum Outcome {
    /// The gain answers the job.
    Answered(Gain),
    /// As many clauses were counted as one round may, and the budget isn't used up.
    Paused,
    /// The budget is used up.
    Spent,
    /// The limit of the test whether a set is minimal is used up.
    SpentInside {
        /// The set.
        set: Set,
        /// The clauses that its test learned.
        units: Units,
    },
}
