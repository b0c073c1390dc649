// Clauses to be met, and the search for an assignment that meets them.
ghost use Rattle.std.specs.Prelude.{◌≡◌, ◌≢◌, ◌<◌, ◌≤◌, ◌^◌, ◌↔◌, All, IfOk, IsTrue, OnOk};
ghost use Rattle.std.specs.Prelude.{[], false};
ghost use Rattle.clause_store.specs.Clause.{IsOver, variable};
ghost use Rattle.bench_clauses.specs.Problem.{IsClauseOver};

use crate::silent::Silent;
use assumption_engine::{Answer, Engine};
use clause_store::{Budget, Clause, Lit, Store};
use item_list::NoMemory;
use std::alloc::Global;
use std::marker::Model;

/// Clauses over the variables 1 to a greatest one.
#[derive(Drop)]
pub struct Problem {
    vars: u32,
    store: Store,
}

impl Model for Problem {
    ghost use Rattle.bench_clauses.specs.Problem.{IsPosed, Posed};

    ghost Value = { Posed };

    ghost view = { λ it. record { vars = it.vars; clauses = it.store } };

    ghost invariant = { λ it. IsPosed it.vars it.store };
}

/// What a search found.
#[derive(Debug, Drop)]
pub struct Outcome {
    /// How it ended.
    pub end: End,
    /// How many clauses it counted.
    pub counted: u32,
}

/// How a search ended.
#[derive(Debug, Drop, Clone, Copy, PartialEq, Eq)]
pub enum End {
    /// Some assignment meets all clauses.
    Met,
    /// None does.
    Unmet,
    /// The budget was used up.
    Spent,
}

impl Problem {
    /// No clauses over the variables 1 to `vars`, of which there are at most 2^24.
    pub fn open(vars: u32) -> Problem {
        Problem {
            vars: vars.min(1 << 24),
            store: Store::open(),
        }
    }

    /// Puts the clause of these literals last, without those whose variable came before or isn't
    /// one of the problem's.
    pub fn put(&mut self, alloc: Global, lits: &[Lit]) -> Result<(), NoMemory>
        ensures { self.new.vars ≡ self.old.vars }
    {
        let clause = clause_of(alloc, self.vars, lits)?;
        self.store.add(alloc, clause.as_slice())?;
        Ok(())
    }

    /// Searches for an assignment that meets all clauses. At most `limit` clauses are counted.
    pub fn solve(self, alloc: Global, limit: u32) -> Result<Outcome, NoMemory>
        requires { 1 ≤ limit }
    {
        let theory = Silent::of(&self.store);
        let mut engine = Engine::open(alloc, self.vars, self.store, theory)?;
        let mut budget = Budget::new(limit);
        let end = match engine.ask(alloc, &[], &mut budget, limit) {
            Answer::Model => End::Met,
            Answer::Core(_) => End::Unmet,
            Answer::NoMemory => return Err(NoMemory),
            _ => End::Spent,
        };
        let counted = budget.used();
        Ok(Outcome { end, counted })
    }
}

/// The clause of literals, without those whose variable came before or isn't one of 1 to `vars`.
fn clause_of(alloc: Global, vars: u32, lits: &[Lit]) -> Result<Clause, NoMemory>
    ensures { IfOk result (IsClauseOver vars) }
{
    let mut clause = Clause::open();
    for lit in lits {
        put_new(alloc, vars, *lit, &mut clause)?;
    }
    Ok(clause)
}

/// Puts a literal last where its variable is one of 1 to `vars` and isn't in the clause.
fn put_new(alloc: Global, vars: u32, lit: Lit, clause: &mut Clause) -> Result<(), NoMemory>
    requires { IsClauseOver vars clause.old }
    ensures { OnOk result (IsClauseOver vars clause.new) }
{
    if is_over(vars, lit) && !has_variable(clause.as_slice(), lit) {
        clause.push(alloc, lit)?;
    }
    Ok(())
}

/// Whether the variable of a literal is one of 1 to `vars`.
fn is_over(vars: u32, lit: Lit) -> bool
    ensures { IsTrue result ↔ IsOver vars lit }
{
    let var = lit.var().0;
    1 <= var && var <= vars
}

/// Whether the variable of `lit` is that of one of the literals.
fn has_variable(lits: &[Lit], lit: Lit) -> bool
    ensures { result ≡ false → All (λ other. variable other ≢ variable lit) lits.now }
{
    lits.iter().any(|other| other.var() == lit.var())
}
