// What a worker is asked.
use ground_program::Atoms;
use item_list::{Copied, NoMemory};
use std::alloc::Global;

/// Which jobs the workers get once an answer set is known.
#[derive(Debug, Drop, Clone, Copy, PartialEq, Eq)]
pub enum Strategy {
    /// One candidate at a time.
    Single,
    /// All open candidates by one disjunction.
    Reduction,
    /// So many open candidates at once, at least 1.
    Chunks(u32),
    /// Workers 1, 4, 7 and so on as in Single, 2, 5, 8 and so on as in Reduction, 3, 6, 9 and so on
    /// as in Chunks of 16.
    Mix,
}

/// What a worker does in a round. Candidates have numbers from 1, in the order of the names.
#[derive(Debug, Drop, PartialEq, Eq)]
pub enum Job {
    /// Nothing.
    Idle,
    /// It looks for an answer set, whatever that shows.
    Coherence,
    /// It tests one candidate.
    Single(u32),
    /// It looks for an answer set that shows one of these candidates.
    Reduce(Atoms),
    /// It looks for an answer set that shows all of these candidates, and for fewer of them where
    /// there is none.
    Chunk(Atoms),
}

impl Copied for Job {
    fn copied(&self, alloc: Global) -> Result<Job, NoMemory> {
        match self {
            Job::Idle => Ok(Job::Idle),
            Job::Coherence => Ok(Job::Coherence),
            Job::Single(cand) => Ok(Job::Single(*cand)),
            Job::Reduce(cands) => Ok(Job::Reduce(cands.copy(alloc)?)),
            Job::Chunk(cands) => Ok(Job::Chunk(cands.copy(alloc)?)),
        }
    }
}
