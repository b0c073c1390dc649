// Clauses from codes and from random numbers. Code 2 says that variable 1 is true, code 3 that it
// is false, and so on.
ghost use Rattle.std.specs.Prelude.{◌≡◌, ◌≢◌, ◌<◌, ◌≤◌, ◌↔◌, false, All, IfOk, IsTrue, OnOk};
ghost use Rattle.clause_store.specs.Clause.{IsOver, variable};
ghost use Rattle.trial_engine.specs.Told.{IsClauseOver};

use clause_store::{Clause, Lit, Units};
use item_list::NoMemory;
use std::alloc::Global;

/// Numbers that look random and are the same for the same seed.
#[derive(Debug, Drop)]
pub struct Draws {
    state: u64,
}

impl Draws {
    /// The numbers of a seed.
    pub fn of(seed: u64) -> Draws {
        Draws { state: seed }
    }

    /// The next number below `limit`.
    pub fn below(&mut self, limit: u32) -> u32
        requires { 0 < limit }
        ensures { result < limit }
    {
        self.state = self
            .state
            .wrapping_mul(6364136223846793005)
            .wrapping_add(1442695040888963407);
        (self.state >> 33) as u32 % limit
    }

    /// A literal of one of the variables 1 to `vars`, or of variable 1 where that is 0.
    fn lit(&mut self, vars: u8) -> Lit {
        if vars == 0 {
            return Lit(2);
        }
        Lit(2 + self.below(2 * u32::from(vars)))
    }
}

/// So many literals with variables of 1 to `vars`.
pub fn random_lits(
    alloc: Global,
    vars: u8,
    count: u32,
    draws: &mut Draws,
) -> Result<Clause, NoMemory> {
    let mut lits = Clause::open();
    for _ in 0..count {
        lits.push(alloc, draws.lit(vars))?;
    }
    Ok(lits)
}

/// So many lists of 1 to 4 literals with variables of 1 to `vars`.
pub fn random_clauses(
    alloc: Global,
    vars: u8,
    count: u32,
    draws: &mut Draws,
) -> Result<Units, NoMemory> {
    let mut clauses = Units::open();
    for _ in 0..count {
        let size = 1 + draws.below(4);
        let lits = random_lits(alloc, vars, size, draws)?;
        clauses.push(alloc, lits)?;
    }
    Ok(clauses)
}

/// The literals of codes.
pub fn lits_of(alloc: Global, codes: &[u32]) -> Result<Clause, NoMemory> {
    let mut lits = Clause::open();
    for code in codes {
        lits.push(alloc, Lit(*code))?;
    }
    Ok(lits)
}

/// The clauses of lists of codes.
pub fn clauses_of(alloc: Global, lists: &[&[u32]]) -> Result<Units, NoMemory> {
    let mut clauses = Units::open();
    for codes in lists {
        let clause = lits_of(alloc, codes)?;
        clauses.push(alloc, clause)?;
    }
    Ok(clauses)
}

/// Clauses without the literals whose variable came before or isn't one of 1 to `vars`.
pub fn clauses_over(alloc: Global, vars: u32, lists: &Units) -> Result<Units, NoMemory>
    ensures { IfOk result (All (IsClauseOver vars)) }
{
    let mut clauses = Units::open();
    for lits in lists.as_slice() {
        let clause = clause_over(alloc, vars, lits.as_slice())?;
        clauses.push(alloc, clause)?;
    }
    Ok(clauses)
}

/// The clause of literals, without those whose variable came before or isn't one of 1 to `vars`.
pub fn clause_over(alloc: Global, vars: u32, lits: &[Lit]) -> Result<Clause, NoMemory>
    ensures { IfOk result (IsClauseOver vars) }
{
    let mut clause = Clause::open();
    for lit in lits {
        put_new(alloc, vars, *lit, &mut clause)?;
    }
    Ok(clause)
}

/// Puts a literal last where its variable is one of 1 to `vars` and isn't in the clause.
fn put_new(alloc: Global, vars: u32, lit: Lit, clause: &mut Clause) -> Result<(), NoMemory>
    requires { IsClauseOver vars clause.old }
    ensures { OnOk result (IsClauseOver vars clause.new) }
{
    if is_over(vars, lit) && !has_variable(clause.as_slice(), lit) {
        clause.push(alloc, lit)?;
    }
    Ok(())
}

/// Whether the variable of a literal is one of 1 to `vars`.
fn is_over(vars: u32, lit: Lit) -> bool
    ensures { IsTrue result ↔ IsOver vars lit }
{
    let var = lit.var().0;
    1 <= var && var <= vars
}

/// Whether the variable of `lit` is that of one of the literals.
pub fn has_variable(lits: &[Lit], lit: Lit) -> bool
    ensures { result ≡ false → All (λ other. variable other ≢ variable lit) lits.now }
{
    lits.iter().any(|other| other.var() == lit.var())
}
