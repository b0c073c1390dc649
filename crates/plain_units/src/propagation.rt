// Unit propagation: one literal after the other that some clause forces, until no new one is
// forced.
ghost use Rattle.std.specs.Prelude.{◌≢◌, ◌↔◌, ◌⊎◌, All, Any, Contains, IsTrue, IfNone, IfOk};
ghost use Rattle.std.specs.Prelude.{IfSome};
ghost use Rattle.clause_store.specs.Clause.{negation};
ghost use Rattle.clause_store.specs.Entailment.{InClosure, IsClosed, IsForcedBy, Refutes};
ghost use Rattle.plain_units.specs.Forcing.{IsClosedUnder, IsFalseBy, IsNewlyForced};

use clause_store::{Clause, Lit};
use item_list::NoMemory;
use std::alloc::Global;

/// The literals that unit propagation by the clauses gives from `lits`, with `lits` themselves.
pub fn closure(alloc: Global, clauses: &[Clause], lits: &[Lit]) -> Result<Clause, NoMemory>
    ensures { IfOk result
        (λ known. (lit : Lit) → Contains known lit ↔ InClosure clauses.now lits.now lit) }
{
    let mut known = Clause::from_slice(alloc, lits)?;
    'additions: while let Some(lit) = newly_forced(clauses, known.as_slice()) {
        known.push(alloc, lit)?;
    }
    Ok(known)
}

/// Whether unit propagation from `lits` makes all literals of some clause false.
pub fn refutes(alloc: Global, clauses: &[Clause], lits: &[Lit]) -> Result<bool, NoMemory>
    ensures { IfOk result (λ yes. IsTrue yes ↔ Refutes clauses.now lits.now) }
{
    let known = closure(alloc, clauses, lits)?;
    Ok(some_false(clauses, known.as_slice()))
}

/// Whether the literal is known, or all literals of some clause are false.
pub fn is_known_or_refuted(clauses: &[Clause], known: &[Lit], lit: Lit) -> bool
    ensures { IsTrue result ↔ Any (IsFalseBy known.now) clauses.now ⊎ Contains known.now lit }
{
    has(known, lit) || some_false(clauses, known)
}

/// Whether all literals of some clause are false.
fn some_false(clauses: &[Clause], known: &[Lit]) -> bool
    ensures { IsTrue result ↔ Any (IsFalseBy known.now) clauses.now }
{
    for clause in clauses {
        if is_false(known, clause.as_slice()) {
            return true;
        }
    }
    false
}

fn is_false(known: &[Lit], clause: &[Lit]) -> bool
    ensures { IsTrue result ↔ IsFalseBy known.now clause.now }
{
    for lit in clause {
        if !has(known, lit.negated()) {
            return false;
        }
    }
    true
}

/// A literal that isn't known and that some clause forces.
fn newly_forced(clauses: &[Clause], known: &[Lit]) -> Option<Lit>
    ensures some { IfSome result
        (λ lit. Any (λ clause. IsNewlyForced known.now clause lit) clauses.now) }
    ensures none { IfNone result (IsClosed clauses.now known.now) }
{
    for clause in clauses {
        if let Some(lit) = forced_in(clause.as_slice(), known) {
            return Some(lit);
        }
    }
    None
}

/// A literal of the clause that isn't known and that the clause forces.
fn forced_in(clause: &[Lit], known: &[Lit]) -> Option<Lit>
    ensures some { IfSome result (IsNewlyForced known.now clause.now) }
    ensures none { IfNone result (IsClosedUnder known.now clause.now) }
{
    for lit in clause {
        if !has(known, *lit) && others_are_false(clause, known, *lit) {
            return Some(*lit);
        }
    }
    None
}

/// Whether all literals of the clause but `lit` are false.
fn others_are_false(clause: &[Lit], known: &[Lit], lit: Lit) -> bool
    ensures { IsTrue result ↔ All (λ other. other ≢ lit → Contains known.now (negation other))
        clause.now }
{
    clause
        .iter()
        .all(|other| *other == lit || has(known, other.negated()))
}

/// Whether the literal is in the list.
fn has(lits: &[Lit], lit: Lit) -> bool
    ensures { IsTrue result ↔ Contains lits.now lit }
{
    lits.iter().any(|other| *other == lit)
}
