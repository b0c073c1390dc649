// Units, each part of their definition in a function.
ghost use Rattle.std.specs.Prelude.{◌≡◌, ◌↔◌, IsTrue, IfOk};
ghost use Rattle.clause_store.specs.Clause.{HasNoVariableTwice};
ghost use Rattle.clause_store.specs.Entailment.{Absorbs, AreUnits, IsUnit, negations, others};
ghost use Rattle.plain_units.specs.Forcing.{HasVariable, IsAbsorbedAt};

use crate::propagation::{closure, is_known_or_refuted};
use clause_store::{Clause, Lit, Units};
use item_list::NoMemory;
use std::alloc::Global;

/// Whether each clause of the list is a unit beside the clauses of `base` and the earlier ones.
pub fn are_units(alloc: Global, base: &Units, list: &Units) -> Result<bool, NoMemory>
    ensures { IfOk result (λ yes. IsTrue yes ↔ AreUnits base.now list.now) }
{
    let mut clauses = base.copy(alloc)?;
    for unit in list.as_slice() {
        let new = is_unit(alloc, clauses.as_slice(), unit.as_slice())?;
        if !new {
            return Ok(false);
        }
        let again = unit.copy(alloc)?;
        clauses.push(alloc, again)?;
    }
    Ok(true)
}

/// Whether the clause has a literal, no variable twice, and isn't absorbed.
fn is_unit(alloc: Global, clauses: &[Clause], unit: &[Lit]) -> Result<bool, NoMemory>
    ensures { IfOk result (λ yes. IsTrue yes ↔ IsUnit clauses.now unit.now) }
{
    if unit.is_empty() || !has_no_variable_twice(unit) {
        return Ok(false);
    }
    let absorbed = absorbs(alloc, clauses, unit)?;
    Ok(!absorbed)
}

fn has_no_variable_twice(clause: &[Lit]) -> bool
    ensures { IsTrue result ↔ HasNoVariableTwice clause.now }
{
    for at in 0..clause.len() {
        let lit = clause[at];
        if has_variable(&clause[at + 1..], lit) {
            return false;
        }
    }
    true
}

/// Whether some literal has the variable of `lit`.
fn has_variable(lits: &[Lit], lit: Lit) -> bool
    ensures { IsTrue result ↔ HasVariable lits.now lit }
{
    lits.iter().any(|other| other.var() == lit.var())
}

/// Whether unit propagation by the clauses already does what the clause does.
pub fn absorbs(alloc: Global, clauses: &[Clause], clause: &[Lit]) -> Result<bool, NoMemory>
    ensures { IfOk result (λ yes. IsTrue yes ↔ Absorbs clauses.now clause.now) }
{
    for lit in clause {
        let absorbed = absorbs_at(alloc, clauses, clause, *lit)?;
        if !absorbed {
            return Ok(false);
        }
    }
    Ok(true)
}

/// Whether propagation from the negations of the other literals refutes or gives `lit`.
fn absorbs_at(alloc: Global, clauses: &[Clause], clause: &[Lit], lit: Lit) -> Result<bool, NoMemory>
    ensures { IfOk result (λ yes. IsTrue yes ↔ IsAbsorbedAt clauses.now clause.now lit) }
{
    let given = negated_others(alloc, clause, lit)?;
    let known = closure(alloc, clauses, given.as_slice())?;
    Ok(is_known_or_refuted(clauses, known.as_slice(), lit))
}

/// The negations of the literals of the clause other than `lit`.
fn negated_others(alloc: Global, clause: &[Lit], lit: Lit) -> Result<Clause, NoMemory>
    ensures { IfOk result (λ given. given ≡ negations (others clause.now lit)) }
{
    let mut given = Clause::open();
    for other in clause {
        if *other != lit {
            given.push(alloc, other.negated())?;
        }
    }
    Ok(given)
}
