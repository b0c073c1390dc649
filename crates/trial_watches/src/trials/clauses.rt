// Clauses from codes. Code 2 says that variable 1 is true, code 3 that it is false, and so on.
ghost use Rattle.std.specs.Prelude.{◌≡◌, ◌≢◌, ◌↔◌, false, All, IfOk, IsTrue, OnOk};
ghost use Rattle.clause_store.specs.Clause.{IsOver, variable};
ghost use Rattle.trial_watches.specs.Over.{IsClauseOver};

use clause_store::{Clause, Lit};
use item_list::NoMemory;
use std::alloc::Global;

/// The clause of codes, without those whose variable came before or isn't one of 1 to `vars`.
pub fn clause_over(alloc: Global, vars: u32, codes: &[u32]) -> Result<Clause, NoMemory>
    ensures { IfOk result (IsClauseOver vars) }
{
    let mut clause = Clause::open();
    for code in codes {
        put_new(alloc, vars, Lit(*code), &mut clause)?;
    }
    Ok(clause)
}

/// Puts a literal last where its variable is one of 1 to `vars` and isn't in the clause.
fn put_new(alloc: Global, vars: u32, lit: Lit, clause: &mut Clause) -> Result<(), NoMemory>
    requires { IsClauseOver vars clause.old }
    ensures { OnOk result (IsClauseOver vars clause.new) }
{
    if is_over(vars, lit) && !has_variable(clause.as_slice(), lit) {
        clause.push(alloc, lit)?;
    }
    Ok(())
}

/// Whether the variable of a literal is one of 1 to `vars`.
fn is_over(vars: u32, lit: Lit) -> bool
    ensures { IsTrue result ↔ IsOver vars lit }
{
    let var = lit.var().0;
    1 <= var && var <= vars
}

/// Whether the variable of `lit` is that of one of the literals.
fn has_variable(lits: &[Lit], lit: Lit) -> bool
    ensures { result ≡ false → All (λ other. variable other ≢ variable lit) lits.now }
{
    lits.iter().any(|other| other.var() == lit.var())
}
