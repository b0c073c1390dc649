// Clauses from random numbers, and stores of them.
ghost use Rattle.std.specs.Prelude.{◌≡◌, ◌≢◌, ◌↔◌, false, All, IfOk, IsTrue, OnOk};
ghost use Rattle.clause_store.specs.Clause.{AreOver, IsOver, variable};
ghost use Rattle.trial_following.specs.Searching.{IsClauseOver};

use clause_store::{Clause, Lit, Store, Units};
use item_list::NoMemory;
use std::alloc::Global;
use trial_inputs::Draws;

/// So many literals with variables of 1 to `vars`.
pub fn random_lits(
    alloc: Global,
    vars: u8,
    count: u32,
    draws: &mut Draws,
) -> Result<Clause, NoMemory> {
    let most = u32::from(vars).saturating_mul(2).saturating_sub(1);
    let mut lits = Clause::open();
    for _ in 0..count {
        lits.push(alloc, Lit(draws.up_to(most).saturating_add(2)))?;
    }
    Ok(lits)
}

/// So many lists of 3 literals with variables of 1 to `vars`.
pub fn random_clauses(
    alloc: Global,
    vars: u8,
    count: u32,
    draws: &mut Draws,
) -> Result<Units, NoMemory> {
    let mut clauses = Units::open();
    for _ in 0..count {
        let lits = random_lits(alloc, vars, 3, draws)?;
        clauses.push(alloc, lits)?;
    }
    Ok(clauses)
}

/// A store with these clauses, without the literals whose variable came before or isn't one of 1
/// to `vars`.
pub fn store_of(alloc: Global, vars: u32, lists: &[Clause]) -> Result<Store, NoMemory>
    ensures { IfOk result (AreOver vars) }
{
    let mut store = Store::open();
    for lits in lists {
        put(alloc, vars, lits.as_slice(), &mut store)?;
    }
    Ok(store)
}

/// Puts a clause last.
fn put(alloc: Global, vars: u32, lits: &[Lit], store: &mut Store) -> Result<(), NoMemory>
    requires { AreOver vars store.old }
    ensures { OnOk result (AreOver vars store.new) }
{
    let clause = clause_over(alloc, vars, lits)?;
    store.add(alloc, clause.as_slice())?;
    Ok(())
}

/// The clause of literals, without those whose variable came before or isn't one of 1 to `vars`.
fn clause_over(alloc: Global, vars: u32, lits: &[Lit]) -> Result<Clause, NoMemory>
    ensures { IfOk result (IsClauseOver vars) }
{
    let mut clause = Clause::open();
    for lit in lits {
        put_new(alloc, vars, *lit, &mut clause)?;
    }
    Ok(clause)
}

/// Puts a literal last where its variable is one of 1 to `vars` and isn't in the clause.
fn put_new(alloc: Global, vars: u32, lit: Lit, clause: &mut Clause) -> Result<(), NoMemory>
    requires { IsClauseOver vars clause.old }
    ensures { OnOk result (IsClauseOver vars clause.new) }
{
    if is_over(vars, lit) && !has_variable(clause.as_slice(), lit) {
        clause.push(alloc, lit)?;
    }
    Ok(())
}

/// Whether the variable of a literal is one of 1 to `vars`.
fn is_over(vars: u32, lit: Lit) -> bool
    ensures { IsTrue result ↔ IsOver vars lit }
{
    let var = lit.var().0;
    1 <= var && var <= vars
}

/// Whether the variable of `lit` is that of one of the literals.
fn has_variable(lits: &[Lit], lit: Lit) -> bool
    ensures { result ≡ false → All (λ other. variable other ≢ variable lit) lits.now }
{
    lits.iter().any(|other| other.var() == lit.var())
}
