// Asks two testers of a normal form for each literal, and compares what they answer.
ghost use Rattle.std.specs.Prelude.{◌≡◌};
ghost use Rattle.clause_store.specs.Clause.{IsOver};
ghost use Rattle.normal_program.specs.Normal.{greatest_body_var};

use crate::trials::answering::is_right;
use crate::trials::pairs::TwoTesters;
use clause_store::Lit;
use coherence_test::{Core, Tested};
use ground_program::Program;
use item_list::NoMemory;
use normal_program::Normal;
use std::alloc::Global;

/// How the second tester has to answer.
#[derive(Drop, Clone, Copy, PartialEq, Eq)]
pub enum Likeness {
    /// By the same sets and cores as the first.
    Same,
    /// As the first whether there is a set, by a right one.
    Verdict,
    /// The same, where it is told before each question what to decide first.
    Preferring,
}

/// What came of questions to two testers.
#[derive(Drop)]
pub struct Tally {
    /// How many literals had a set.
    pub sets: u32,
    /// How many had a core.
    pub cores: u32,
    /// How many were answered wrongly, or not alike.
    pub apart: u32,
}

impl Tally {
    pub fn none() -> Tally {
        Tally {
            sets: 0,
            cores: 0,
            apart: 0,
        }
    }

    /// Something was wrong.
    pub fn fail(&mut self) {
        self.apart = self.apart.saturating_add(1);
    }

    /// Counts the answer to one question, and whether it was right.
    fn add(&mut self, tested: &Tested, right: bool) {
        match tested {
            Tested::Found(_) => self.sets = self.sets.saturating_add(1),
            _ => self.cores = self.cores.saturating_add(1),
        }
        if !right {
            self.fail();
        }
    }
}

/// Asks for each literal of an atom or a body whose code is below 64.
pub fn compare_all(
    alloc: Global,
    program: &Program,
    two: &mut TwoTesters,
    likeness: Likeness,
    tally: &mut Tally,
) -> Result<(), NoMemory> {
    for code in 2..64u32 {
        if let Some(lit) = two.literal(code) {
            compare_at(alloc, program, two, lit, likeness, tally)?;
        }
    }
    Ok(())
}

/// Asks for one literal.
fn compare_at(
    alloc: Global,
    program: &Program,
    two: &mut TwoTesters,
    lit: Lit,
    likeness: Likeness,
    tally: &mut Tally,
) -> Result<(), NoMemory>
    requires { IsOver (greatest_body_var two.old) lit }
{
    prepare(two, lit, likeness);
    let (one, other) = two.answers(alloc, lit)?;
    let right = are_right(alloc, program, two.normal, lit, &other)?;
    tally.add(&one, right && are_like(&one, &other, likeness));
    Ok(())
}

/// Tells the second tester what to decide first, where it is to be told.
fn prepare(two: &mut TwoTesters, lit: Lit, likeness: Likeness)
    ensures { two.new ≡ two.old }
{
    if let Likeness::Preferring = likeness {
        two.prefer(&preferred_for(lit));
    }
}

/// What is preferred before a literal is asked for: its negation, and others.
fn preferred_for(lit: Lit) -> [Lit; 3] {
    let other = lit.0.saturating_add(3);
    [Lit(lit.0 ^ 1), Lit(other), Lit(other / 2)]
}

/// Whether an answer to a question for a literal is a core, or a right set.
fn are_right(
    alloc: Global,
    program: &Program,
    normal: &Normal,
    lit: Lit,
    tested: &Tested,
) -> Result<bool, NoMemory> {
    match tested {
        Tested::Found(set) => is_right(alloc, program, normal, set, lit),
        Tested::Core(_) => Ok(true),
        _ => Ok(false),
    }
}

/// Whether two answers are as like as they have to be.
fn are_like(one: &Tested, other: &Tested, likeness: Likeness) -> bool {
    let exact = likeness == Likeness::Same;
    match (one, other) {
        (Tested::Found(set), Tested::Found(found)) => {
            !exact || set.as_slice() == found.as_slice()
        }
        (Tested::Core(core), Tested::Core(found)) => !exact || is_same(core, found),
        _ => false,
    }
}

fn is_same(core: &Core, other: &Core) -> bool {
    core.any == other.any && core.lits.as_slice() == other.lits.as_slice()
}
