// An engine over a listed theory. What its calls ask for is met here, whatever a test hands in.
ghost use Rattle.std.specs.Prelude.{◌≡◌, ◌<◌, ◌^◌, ◌↔◌, All, IfOk, IsTrue};
ghost use Rattle.clause_store.specs.Clause.{AreOver, IsOver};
ghost use Rattle.trial_engine.specs.Told.{IsClauseOver};
ghost use Rattle.trial_engine.specs.Scene.{IsSound};

use crate::trials::all_assignments::is_right;
use crate::trials::clauses::{clause_over, clauses_over, has_variable};
use crate::trials::listed::{Listed, Manner};
use crate::trials::unit_checks::are_confirmed;
use assumption_engine::{Answer, Engine};
use clause_store::{Budget, Clause, Lit, Store, Trail, Units, Var};
use item_list::NoMemory;
use std::alloc::Global;
use std::marker::Model;

/// What a test is about.
#[derive(Clone, Copy)]
pub struct Posed<'a> {
    /// The greatest variable.
    pub vars: u8,
    /// The clauses of the store.
    pub base: &'a Units,
    /// The clauses of the theory.
    pub listed: &'a Units,
    /// When it gives them.
    pub manner: Manner,
    /// How many clauses may be counted.
    pub limit: u32,
}

/// An engine with its budget, and the clauses that its models must meet.
#[derive(Drop)]
pub struct Scene {
    engine: Engine<Listed>,
    first: usize,
    listed: Units,
    must: Units,
    budget: Budget,
}

impl Model for Scene {
    ghost use Rattle.std.specs.Prelude.{Bool};
    ghost use Rattle.trial_engine.specs.Scene.{IsSound};

    ghost Value = { Bool };

    ghost view = { λ it. it.engine.dead };

    ghost invariant = { λ it.
        IsSound it.engine.theory it.engine.state it.engine.defined it.engine.dead it.listed };
}

impl Scene {
    /// The engine of what is posed. Literals of other variables are left out, and those whose
    /// variable came before in their clause.
    pub fn open(alloc: Global, posed: Posed) -> Result<Scene, NoMemory> {
        let vars = u32::from(posed.vars);
        let base = clauses_over(alloc, vars, posed.base)?;
        let listed = clauses_over(alloc, vars, posed.listed)?;
        let engine = engine_of(alloc, vars, &base, &listed, posed.manner)?;
        Ok(Scene {
            engine,
            first: base.len(),
            must: together(alloc, base, &listed)?,
            listed,
            budget: Budget::new(posed.limit),
        })
    }

    /// The assignments.
    pub fn trail(&self) -> &Trail {
        self.engine.trail()
    }

    /// How many clauses were counted.
    pub fn used(&self) -> u32 {
        self.budget.used()
    }

    /// The clauses that were counted, in order.
    pub fn counted(&self) -> &[Clause] {
        self.budget.units().as_slice()
    }

    /// Asks whether some model makes these literals true, of those that are over the variables.
    /// Spent is also answered where nothing is left to be counted.
    pub fn ask(&mut self, alloc: Global, assumed: &[Lit], slice: u32) -> Result<Answer, NoMemory> {
        let lits = lits_on(alloc, self.engine.trail(), assumed)?;
        if slice == 0 || self.budget.used() >= self.budget.limit() {
            return Ok(Answer::Spent);
        }
        Ok(
            self.engine
                .ask(alloc, lits.as_slice(), &mut self.budget, slice),
        )
    }

    /// Adds the clause of that place of the theory, if there is one, to the engine. False is an
    /// engine that lacks memory.
    pub fn add(&mut self, alloc: Global, at: usize) -> bool {
        if at >= self.listed.len() {
            return true;
        }
        let clause = self.listed.get(at);
        if !are_on(self.engine.trail(), clause.as_slice()) {
            return true;
        }
        self.engine.add(alloc, clause.as_slice()).is_ok()
    }

    /// Makes a variable a selector of some literals, without those whose variable came before or
    /// isn't one of the engine's. Nothing happens where the selector isn't or is one of theirs.
    /// False is an engine that lacks memory.
    pub fn define(&mut self, alloc: Global, selector: u8, any: &[Lit]) -> Result<bool, NoMemory> {
        let var = Var(u32::from(selector));
        let lits = clause_over(alloc, self.engine.trail().vars(), any)?;
        if !self.engine.trail().has(var.negative())
            || has_variable(lits.as_slice(), var.negative())
        {
            return Ok(true);
        }
        let had = self.engine.define(alloc, var, lits.as_slice()).is_ok();
        put_with(alloc, &mut self.must, lits, var.negative())?;
        Ok(had)
    }

    /// Lets the variables of these literals be decided first.
    pub fn prefer(&mut self, lits: &[Lit]) {
        self.engine.prefer(lits);
    }

    /// Whether an answer is one that all assignments bear out.
    pub fn is_right(&self, assumed: &[Lit], answer: &Answer) -> bool {
        is_right(self.engine.trail(), self.must.as_slice(), assumed, answer)
    }

    /// Whether what was counted is confirmed by slow unit propagation.
    pub fn is_confirmed(&self, alloc: Global) -> Result<bool, NoMemory> {
        are_confirmed(
            alloc,
            self.engine.store(),
            self.first,
            self.budget.units().as_slice(),
            self.must.as_slice(),
        )
    }
}

/// An engine over the theory of clauses, with others in its store.
fn engine_of(
    alloc: Global,
    vars: u32,
    base: &Units,
    listed: &Units,
    manner: Manner,
) -> Result<Engine<Listed>, NoMemory>
    requires few { vars < 2 ^ 30 }
    requires base { All (IsClauseOver vars) base.now }
    requires listed { All (IsClauseOver vars) listed.now }
    ensures { IfOk result
        (λ it. IsSound it.theory it.state it.defined it.dead listed.now) }
{
    let store = store_of(alloc, vars, base.as_slice())?;
    let again = listed.copy(alloc)?;
    let theory = Listed::of(alloc, vars, &store, again, manner);
    Engine::open(alloc, vars, store, theory)
}

/// A store with these clauses.
fn store_of(alloc: Global, vars: u32, clauses: &[Clause]) -> Result<Store, NoMemory>
    requires { All (IsClauseOver vars) clauses.now }
    ensures { IfOk result (AreOver vars) }
{
    let mut store = Store::open();
    for clause in clauses {
        store.add(alloc, clause.as_slice())?;
    }
    Ok(store)
}

/// Clauses and then others.
fn together(alloc: Global, clauses: Units, others: &Units) -> Result<Units, NoMemory> {
    let mut all = clauses;
    for clause in others.as_slice() {
        let again = clause.copy(alloc)?;
        all.push(alloc, again)?;
    }
    Ok(all)
}

/// Puts a clause last, with one more literal.
fn put_with(alloc: Global, clauses: &mut Units, lits: Clause, last: Lit) -> Result<(), NoMemory> {
    let mut clause = lits;
    clause.push(alloc, last)?;
    clauses.push(alloc, clause)
}

/// The literals whose variables a trail has.
fn lits_on(alloc: Global, trail: &Trail, lits: &[Lit]) -> Result<Clause, NoMemory>
    ensures { IfOk result (All (IsOver trail.now.vars)) }
{
    let mut on = Clause::open();
    for lit in lits {
        if trail.has(*lit) {
            on.push(alloc, *lit)?;
        }
    }
    Ok(on)
}

/// Whether a trail has the variables of all literals.
fn are_on(trail: &Trail, lits: &[Lit]) -> bool
    ensures { IsTrue result → All (IsOver trail.now.vars) lits.now }
{
    for lit in lits {
        if !trail.has(*lit) {
            return false;
        }
    }
    true
}
