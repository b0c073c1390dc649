// The same questions to an engine that follows another one, and to one that doesn't.
use crate::trials::clauses::{random_clauses, random_lits};
use crate::trials::searcher::Searcher;
use assumption_engine::Answer;
use clause_store::{Clause, Lit, Units};
use item_list::NoMemory;
use std::alloc::Global;
use std::test::Fail;
use trial_inputs::Draws;

/// How many sets of clauses there are.
pub const SETS: u32 = 30;

/// Their greatest variable.
pub const VARS: u8 = 8;

/// How many questions had a model, and how many a core.
#[derive(Debug, Drop)]
struct Tally {
    models: u32,
    cores: u32,
}

impl Tally {
    /// Counts an answer.
    fn note(&mut self, answer: &Answer) {
        match answer {
            Answer::Model => self.models = self.models.saturating_add(1),
            Answer::Core(_) => self.cores = self.cores.saturating_add(1),
            _ => {}
        }
    }
}

/// An engine that was asked three questions, with two literals preferred before each.
fn leader(alloc: Global, clauses: &Units, draws: &mut Draws) -> Result<Searcher, NoMemory> {
    let mut leader = Searcher::open(alloc, VARS, clauses)?;
    for _ in 0..3u32 {
        lead(alloc, &mut leader, draws)?;
    }
    Ok(leader)
}

/// Asks an engine a question, with two literals preferred before.
pub fn lead(alloc: Global, leader: &mut Searcher, draws: &mut Draws) -> Result<(), NoMemory> {
    let preferred = random_lits(alloc, VARS, 2, draws)?;
    leader.prefer(preferred.as_slice());
    let assumed = random_lits(alloc, VARS, 2, draws)?;
    leader.ask(alloc, assumed.as_slice())?;
    Ok(())
}

/// Whether what an engine answers is so, and the other one says the same.
fn is_answered(
    alloc: Global,
    follower: &mut Searcher,
    alone: &mut Searcher,
    assumed: &[Lit],
    tally: &mut Tally,
) -> Result<bool, NoMemory> {
    let answer = follower.ask(alloc, assumed)?;
    tally.note(&answer);
    if let Answer::Model = &answer {
        return Ok(follower.are_true(assumed) && alone.has_model(alloc, assumed)?);
    }
    is_core(alloc, &answer, alone, assumed)
}

/// Whether an answer is a core of the assumed literals, for another engine too.
fn is_core(
    alloc: Global,
    answer: &Answer,
    alone: &mut Searcher,
    assumed: &[Lit],
) -> Result<bool, NoMemory> {
    match answer {
        Answer::Core(core) if are_among(core, assumed) => alone.has_none(alloc, core.as_slice()),
        _ => Ok(false),
    }
}

/// Whether each literal of a core is one of `assumed`.
fn are_among(core: &Clause, assumed: &[Lit]) -> bool {
    core.as_slice().iter().all(|lit| assumed.contains(lit))
}

/// Whether both engines answer five random questions alike.
fn are_answered(
    alloc: Global,
    follower: &mut Searcher,
    alone: &mut Searcher,
    draws: &mut Draws,
    tally: &mut Tally,
) -> Result<bool, NoMemory> {
    for count in 0..5u32 {
        let assumed = random_lits(alloc, VARS, count, draws)?;
        if !is_answered(alloc, follower, alone, assumed.as_slice(), tally)? {
            return Ok(false);
        }
    }
    Ok(true)
}

/// Whether an engine answers as one that follows none.
fn answers_as_alone(
    alloc: Global,
    clauses: &Units,
    follower: &mut Searcher,
    draws: &mut Draws,
    tally: &mut Tally,
) -> Result<bool, NoMemory> {
    let mut alone = Searcher::open(alloc, VARS, clauses)?;
    are_answered(alloc, follower, &mut alone, draws, tally)
}

/// Whether an engine that follows another one answers as one that doesn't.
fn answers_alike(
    alloc: Global,
    clauses: &Units,
    leader: &Searcher,
    draws: &mut Draws,
    tally: &mut Tally,
) -> Result<bool, NoMemory> {
    let mut follower = Searcher::open_after(alloc, VARS, clauses, leader)?;
    answers_as_alone(alloc, clauses, &mut follower, draws, tally)
}

/// Whether that is so for a random set of clauses.
fn is_one_set_answered(
    alloc: Global,
    draws: &mut Draws,
    tally: &mut Tally,
) -> Result<bool, NoMemory> {
    let clauses = random_clauses(alloc, VARS, 20, draws)?;
    let leader = leader(alloc, &clauses, draws)?;
    answers_alike(alloc, &clauses, &leader, draws, tally)
}

/// Whether it is so for all random sets, and there are models and cores among the answers.
fn are_all_answered(alloc: Global) -> Result<bool, NoMemory> {
    let mut draws = Draws::of(1);
    let mut tally = Tally {
        models: 0,
        cores: 0,
    };
    for _ in 0..SETS {
        if !is_one_set_answered(alloc, &mut draws, &mut tally)? {
            return Ok(false);
        }
    }
    Ok(tally.models > 30 && tally.cores > 30)
}

#[test]
fn one_that_follows_answers_as_one_that_does_not(rt: HostRuntime) -> Result<(), Fail> {
    assert!(rt; are_all_answered(rt.alloc())?);
    Ok(())
}
