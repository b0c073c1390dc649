// An engine over clauses alone. What its calls ask for is met here, whatever a test hands in.
ghost use Rattle.std.specs.Prelude.{All, IfOk};
ghost use Rattle.clause_store.specs.Clause.{IsOver};

use crate::trials::clauses::store_of;
use crate::trials::silent::Silent;
use assumption_engine::{Answer, Engine};
use clause_store::{Budget, Clause, Lit, Trail, Units, Value};
use item_list::NoMemory;
use std::alloc::Global;
use std::marker::Model;

/// More clauses than any question counts.
const MANY: u32 = 10_000;

/// An engine over clauses.
#[derive(Drop)]
pub struct Searcher {
    engine: Engine<Silent>,
}

impl Model for Searcher {
    ghost use Rattle.std.specs.Prelude.{Bool};
    ghost use Rattle.trial_following.specs.Searching.{IsSound};

    ghost Value = { Bool };

    ghost view = { λ it. it.engine.dead };

    ghost invariant = { λ it.
        IsSound it.engine.theory it.engine.state it.engine.defined it.engine.dead };
}

impl Searcher {
    /// An engine over these clauses. Literals of other variables are left out, and those whose
    /// variable came before in their clause.
    pub fn open(alloc: Global, vars: u8, clauses: &Units) -> Result<Searcher, NoMemory> {
        let vars = u32::from(vars);
        let store = store_of(alloc, vars, clauses.as_slice())?;
        let theory = Silent::of(&store);
        let engine = Engine::open(alloc, vars, store, theory)?;
        Ok(Searcher { engine })
    }

    /// The same engine, which decides in the order of another one, and as that one did last.
    pub fn open_after(
        alloc: Global,
        vars: u8,
        clauses: &Units,
        other: &Searcher,
    ) -> Result<Searcher, NoMemory> {
        let mut searcher = Searcher::open(alloc, vars, clauses)?;
        searcher.engine.take_after(alloc, &other.engine)?;
        Ok(searcher)
    }

    /// Asks whether some assignment meets the clauses and makes these literals true, of those that
    /// are over the variables.
    pub fn ask(&mut self, alloc: Global, assumed: &[Lit]) -> Result<Answer, NoMemory> {
        let lits = lits_on(alloc, self.engine.trail(), assumed)?;
        let mut budget = Budget::new(MANY);
        Ok(self.engine.ask(alloc, lits.as_slice(), &mut budget, MANY))
    }

    /// Whether it finds a model that makes these literals true.
    pub fn has_model(&mut self, alloc: Global, assumed: &[Lit]) -> Result<bool, NoMemory> {
        let answer = self.ask(alloc, assumed)?;
        Ok(matches!(answer, Answer::Model))
    }

    /// Whether it finds that no model makes these literals true.
    pub fn has_none(&mut self, alloc: Global, assumed: &[Lit]) -> Result<bool, NoMemory> {
        let answer = self.ask(alloc, assumed)?;
        Ok(matches!(answer, Answer::Core(_)))
    }

    /// Lets the variables of these literals be decided first.
    pub fn prefer(&mut self, lits: &[Lit]) {
        self.engine.prefer(lits);
    }

    /// The assignments.
    pub fn trail(&self) -> &Trail {
        self.engine.trail()
    }

    /// Whether it has more than the clauses that it was opened with.
    pub fn has_learned(&self, clauses: &Units) -> bool {
        self.engine.store().len() as usize > clauses.len()
    }

    /// Whether a literal is true.
    pub fn is_true(&self, lit: Lit) -> bool {
        let trail = self.engine.trail();
        trail.has(lit) && trail.value(lit) == Value::Yes
    }

    /// Whether all these literals are true.
    pub fn are_true(&self, lits: &[Lit]) -> bool {
        lits.iter().all(|lit| self.is_true(*lit))
    }
}

/// The literals whose variables a trail has.
fn lits_on(alloc: Global, trail: &Trail, lits: &[Lit]) -> Result<Clause, NoMemory>
    ensures { IfOk result (All (IsOver trail.now.vars)) }
{
    let mut on = Clause::open();
    for lit in lits {
        if trail.has(*lit) {
            on.push(alloc, *lit)?;
        }
    }
    Ok(on)
}
