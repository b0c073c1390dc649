// What comes of one test of many candidates at once.
use crate::outcome::Outcome;
use ground_program::Atoms;

/// What came of one test of a chunk.
#[derive(Drop)]
pub enum Step {
    /// The test of the job has ended.
    Ended(Outcome),
    /// These candidates of the chunk are to be tested next.
    Half(Atoms),
}
