// The other way to what a search counted: slow unit propagation, by the definition alone.
ghost use Rattle.std.specs.Prelude.{◌<◌, IsTrue, length};

use clause_store::{Clause, ClauseRef, Lit, Store, Units};
use item_list::NoMemory;
use plain_units::{absorbs, refutes};
use std::alloc::Global;

/// Whether the clauses of a store after the first ones are those that were counted, in order, and
/// others that may be there. Each that was counted must be refuted and not absorbed by all clauses
/// before it.
pub fn are_confirmed(
    alloc: Global,
    store: &Store,
    first: usize,
    counted: &[Clause],
    others: &[Clause],
) -> Result<bool, NoMemory> {
    let mut next = 0;
    let mut before = clauses_up_to(alloc, store, first)?;
    for at in first..store.len() {
        let lits = store.lits(ClauseRef(at));
        if is_next(counted, next, lits) {
            next += 1;
            if !is_new(alloc, before.as_slice(), lits)? {
                return Ok(false);
            }
        } else if !is_among(others, lits) {
            return Ok(false);
        }
        put(alloc, &mut before, lits)?;
    }
    Ok(next == counted.len())
}

/// Whether the clause of that place is that of these literals.
fn is_next(clauses: &[Clause], at: usize, lits: &[Lit]) -> bool
    ensures { IsTrue result → at < length clauses.now }
{
    match clauses.get(at) {
        Some(clause) => clause.as_slice() == lits,
        None => false,
    }
}

/// Whether one of the clauses is that of these literals.
fn is_among(clauses: &[Clause], lits: &[Lit]) -> bool {
    for clause in clauses {
        if clause.as_slice() == lits {
            return true;
        }
    }
    false
}

/// Whether clauses refute the negations of a clause and don't absorb it.
fn is_new(alloc: Global, before: &[Clause], lits: &[Lit]) -> Result<bool, NoMemory> {
    let absorbed = absorbs(alloc, before, lits)?;
    let negations = negations_of(alloc, lits)?;
    let refuted = refutes(alloc, before, negations.as_slice())?;
    Ok(refuted && !absorbed)
}

/// The negations of literals.
fn negations_of(alloc: Global, lits: &[Lit]) -> Result<Clause, NoMemory> {
    let mut negations = Clause::open();
    for lit in lits {
        negations.push(alloc, lit.negated())?;
    }
    Ok(negations)
}

/// The first clauses of a store.
pub fn clauses_up_to(alloc: Global, store: &Store, count: usize) -> Result<Units, NoMemory> {
    let mut clauses = Units::open();
    for at in 0..count.min(store.len()) {
        put(alloc, &mut clauses, store.lits(ClauseRef(at)))?;
    }
    Ok(clauses)
}

/// Puts the clause of these literals last.
fn put(alloc: Global, clauses: &mut Units, lits: &[Lit]) -> Result<(), NoMemory> {
    let clause = Clause::from_slice(alloc, lits)?;
    clauses.push(alloc, clause)
}
