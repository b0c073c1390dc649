// What an engine decides that follows another one.
use crate::trials::clauses::{random_clauses, random_lits};
use crate::trials::questions::{SETS, VARS, lead};
use crate::trials::searcher::Searcher;
use clause_store::{Clause, Lit, Trail, Units};
use item_list::NoMemory;
use std::alloc::Global;
use std::test::Fail;
use trial_inputs::{Draws, clause_of};

/// How often an engine was compared with its leader, and how often one without a leader did
/// otherwise than that.
#[derive(Debug, Drop)]
struct Tally {
    compared: u32,
    otherwise: u32,
}

impl Tally {
    fn none() -> Tally {
        Tally {
            compared: 0,
            otherwise: 0,
        }
    }

    /// Counts a comparison, and whether one without a leader did the same.
    fn note(&mut self, same_alone: bool) {
        self.compared = self.compared.saturating_add(1);
        if !same_alone {
            self.otherwise = self.otherwise.saturating_add(1);
        }
    }

    /// Whether there were enough of both.
    fn shows_enough(&self) -> bool {
        self.compared >= 10 && self.otherwise >= 5
    }
}

/// Two of four variables: 1 or 2, and 3 or 4, and neither both.
static PAIRS: [&[u32]; 4] = [&[2, 4], &[3, 5], &[6, 8], &[7, 9]];

/// The clauses of the pairs.
fn pairs(alloc: Global) -> Result<Units, NoMemory> {
    let mut clauses = Units::open();
    for codes in &PAIRS {
        let clause = clause_of(alloc, codes)?;
        clauses.push(alloc, clause)?;
    }
    Ok(clauses)
}

/// Whether an engine over the pairs that follows one with this preference decides its variable
/// first, as that literal.
fn is_first_decision(alloc: Global, preferred: Lit) -> Result<bool, NoMemory> {
    let clauses = pairs(alloc)?;
    let mut leader = Searcher::open(alloc, 4, &clauses)?;
    leader.prefer(&[preferred]);
    begins_after(alloc, &clauses, &leader, preferred)
}

/// Whether an engine over the pairs that follows another one decides this literal first.
fn begins_after(
    alloc: Global,
    clauses: &Units,
    leader: &Searcher,
    lit: Lit,
) -> Result<bool, NoMemory> {
    let mut follower = Searcher::open_after(alloc, 4, clauses, leader)?;
    begins_with(alloc, &mut follower, lit)
}

/// Whether an engine finds a model, and decides this literal first.
fn begins_with(alloc: Global, searcher: &mut Searcher, lit: Lit) -> Result<bool, NoMemory> {
    let found = searcher.has_model(alloc, &[])?;
    let decided = decisions_of(alloc, searcher.trail())?;
    Ok(found && decided.as_slice().first() == Some(&lit))
}

/// Whether each literal of the pairs is decided first where it was preferred.
fn each_is_first(alloc: Global) -> Result<bool, NoMemory> {
    for code in 2..10u32 {
        if !is_first_decision(alloc, Lit(code))? {
            return Ok(false);
        }
    }
    Ok(true)
}

#[test]
fn what_another_prefers_is_decided_first(rt: HostRuntime) -> Result<(), Fail> {
    assert!(rt; each_is_first(rt.alloc())?);
    Ok(())
}

/// The decisions on a trail, in order.
fn decisions_of(alloc: Global, trail: &Trail) -> Result<Clause, NoMemory> {
    let mut lits = Clause::open();
    for step in trail.steps() {
        if step.reason.is_none() {
            lits.push(alloc, step.lit)?;
        }
    }
    Ok(lits)
}

/// Whether a literal stands in some clause.
fn stands(clauses: &Units, lit: Lit) -> bool {
    clauses
        .as_slice()
        .iter()
        .any(|clause| clause.as_slice().contains(&lit))
}

/// Whether the literals of one engine are true by another too. A variable that stands unnegated in
/// no clause is true only where that is assumed, and false otherwise.
fn is_found_again(one: &Searcher, other: &Searcher, clauses: &Units) -> bool {
    one.trail()
        .steps()
        .iter()
        .all(|step| other.is_true(expected_of(step.lit, clauses)))
}

/// The literal that is decided after one was true.
fn expected_of(lit: Lit, clauses: &Units) -> Lit {
    if lit.is_negated() || stands(clauses, lit) {
        lit
    } else {
        lit.negated()
    }
}

/// Whether an engine finds the model of another one, without assumptions.
fn finds_it(
    alloc: Global,
    clauses: &Units,
    leader: &Searcher,
    searcher: &mut Searcher,
) -> Result<bool, NoMemory> {
    let found = searcher.has_model(alloc, &[])?;
    Ok(found && is_found_again(leader, searcher, clauses))
}

/// Whether one that follows it does.
fn follower_finds_it(alloc: Global, clauses: &Units, leader: &Searcher) -> Result<bool, NoMemory> {
    let mut follower = Searcher::open_after(alloc, VARS, clauses, leader)?;
    finds_it(alloc, clauses, leader, &mut follower)
}

/// Whether one that follows none does.
fn alone_finds_it(alloc: Global, clauses: &Units, leader: &Searcher) -> Result<bool, NoMemory> {
    let mut alone = Searcher::open(alloc, VARS, clauses)?;
    finds_it(alloc, clauses, leader, &mut alone)
}

/// Whether an engine that follows one with a model finds that model.
fn repeats(
    alloc: Global,
    clauses: &Units,
    leader: &Searcher,
    tally: &mut Tally,
) -> Result<bool, NoMemory> {
    tally.note(alone_finds_it(alloc, clauses, leader)?);
    follower_finds_it(alloc, clauses, leader)
}

/// Whether that is so after two assumptions, if the leader finds a model under them.
fn repeats_after(
    alloc: Global,
    clauses: &Units,
    leader: &mut Searcher,
    draws: &mut Draws,
    tally: &mut Tally,
) -> Result<bool, NoMemory> {
    let assumed = random_lits(alloc, VARS, 2, draws)?;
    if !leader.has_model(alloc, assumed.as_slice())? {
        return Ok(true);
    }
    repeats(alloc, clauses, leader, tally)
}

/// Whether that is so for a random set of clauses.
fn one_repeats(alloc: Global, draws: &mut Draws, tally: &mut Tally) -> Result<bool, NoMemory> {
    let clauses = random_clauses(alloc, VARS, 20, draws)?;
    let mut leader = Searcher::open(alloc, VARS, &clauses)?;
    repeats_after(alloc, &clauses, &mut leader, draws, tally)
}

/// Whether it is so for all random sets, and such engines find other models without a leader.
fn all_repeat(alloc: Global) -> Result<bool, NoMemory> {
    let mut draws = Draws::of(3);
    let mut tally = Tally::none();
    for _ in 0..SETS {
        if !one_repeats(alloc, &mut draws, &mut tally)? {
            return Ok(false);
        }
    }
    Ok(tally.shows_enough())
}

#[test]
fn the_last_model_of_another_is_found_again(rt: HostRuntime) -> Result<(), Fail> {
    assert!(rt; all_repeat(rt.alloc())?);
    Ok(())
}

/// Whether an engine decides what its leader decides, where both are asked the same and none has
/// learned a clause.
fn decides_alike(
    alloc: Global,
    clauses: &Units,
    leader: &mut Searcher,
    tally: &mut Tally,
) -> Result<bool, NoMemory> {
    let mut follower = Searcher::open_after(alloc, VARS, clauses, leader)?;
    decides_as(alloc, clauses, leader, &mut follower, tally)
}

/// The same of an engine that follows it.
fn decides_as(
    alloc: Global,
    clauses: &Units,
    leader: &mut Searcher,
    follower: &mut Searcher,
    tally: &mut Tally,
) -> Result<bool, NoMemory> {
    let own = asked_decisions(alloc, leader)?;
    let followed = decides(alloc, follower, own.as_slice())?;
    if leader.has_learned(clauses) || follower.has_learned(clauses) {
        return Ok(true);
    }
    tally.note(alone_decides(alloc, clauses, own.as_slice())?);
    Ok(followed)
}

/// Whether an engine that follows none makes these decisions.
fn alone_decides(alloc: Global, clauses: &Units, lits: &[Lit]) -> Result<bool, NoMemory> {
    let mut alone = Searcher::open(alloc, VARS, clauses)?;
    decides(alloc, &mut alone, lits)
}

/// Whether an engine that is asked with no assumption makes these decisions.
fn decides(alloc: Global, searcher: &mut Searcher, lits: &[Lit]) -> Result<bool, NoMemory> {
    let own = asked_decisions(alloc, searcher)?;
    Ok(own.as_slice() == lits)
}

/// The decisions of an engine that is asked with no assumption.
fn asked_decisions(alloc: Global, searcher: &mut Searcher) -> Result<Clause, NoMemory> {
    searcher.ask(alloc, &[])?;
    decisions_of(alloc, searcher.trail())
}

/// Whether that is so for a random set of clauses, after one question to the leader.
fn one_decides_alike(
    alloc: Global,
    draws: &mut Draws,
    tally: &mut Tally,
) -> Result<bool, NoMemory> {
    let clauses = random_clauses(alloc, VARS, 20, draws)?;
    let mut leader = Searcher::open(alloc, VARS, &clauses)?;
    lead(alloc, &mut leader, draws)?;
    decides_alike(alloc, &clauses, &mut leader, tally)
}

/// Whether it is so for all random sets, and such engines decide otherwise without a leader.
fn all_decide_alike(alloc: Global) -> Result<bool, NoMemory> {
    let mut draws = Draws::of(5);
    let mut tally = Tally::none();
    for _ in 0..SETS {
        if !one_decides_alike(alloc, &mut draws, &mut tally)? {
            return Ok(false);
        }
    }
    Ok(tally.shows_enough())
}

#[test]
fn its_decisions_are_those_of_the_other(rt: HostRuntime) -> Result<(), Fail> {
    assert!(rt; all_decide_alike(rt.alloc())?);
    Ok(())
}
