// What a worker answers.
use ground_program::{Atoms, Sets};
use normal_program::SpentTest;

/// How a round ended.
#[derive(Debug, Drop)]
pub enum RoundEnd {
    /// The gain answers the job.
    Done,
    /// Others have proved each candidate of the job.
    Settled,
    /// As many clauses were counted as one round may, and the budget of the test isn't used up.
    Paused,
    /// The budget of a test of coherence or of one candidate is used up.
    Spent(SpentTest),
    /// The budget of a test of several candidates is used up.
    SpentWide(SpentTest),
    /// Memory ran out.
    NoMemory,
}

/// What a worker found in a round, all of it true.
#[derive(Debug, Drop)]
pub struct Gain {
    /// Answer sets.
    pub sets: Sets,
    /// Candidates that were proved: consequences in cautious mode, and no consequences in brave mode.
    pub proved: Atoms,
    /// Whether there is an answer set, where that was found out.
    pub coherent: Option<bool>,
    /// How the round ended.
    pub ended: RoundEnd,
}
