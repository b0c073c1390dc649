// Whether a test inside a set is rightly spent, by slow checks: the set keeps the rules of its own
// reduct and meets the compute statement, and the units are new there and hold in each smaller set
// that keeps the reduct.
ghost use Rattle.std.specs.Prelude.{◌≡◌, ◌<◌, IsTrue};
ghost use Rattle.ground_program.specs.Meaning.{IsSetOver};
ghost use Rattle.normal_program.specs.Limit.{IsNormal};

use clause_store::{Clause, ClauseRef, Store, Units};
use completion::complete_within;
use ground_program::{Program, Set, has_atom, holds_in, meets_compute};
use item_list::NoMemory;
use normal_program::Normal;
use plain_units::are_units;
use std::alloc::Global;
use trial_inputs::{extension, has_true, set_of};

/// Whether a test inside a set is spent on these units, in a program of fewer than 16 atoms.
pub fn is_spent_within(
    alloc: Global,
    program: &Program,
    normal: &Normal,
    set: &Set,
    units: &Units,
) -> Result<bool, NoMemory>
    requires { IsNormal normal.now }
{
    if !is_over(normal.atoms, set.as_slice()) || !keeps_own(program, set) {
        return Ok(false);
    }
    let inner = clauses_within(alloc, normal, set)?;
    if !are_units(alloc, &inner, units)? {
        return Ok(false);
    }
    hold_in_smaller(alloc, program, normal, set, units)
}

/// Whether a set has a place for each atom up to `atoms`, and for position 0, which is false.
fn is_over(atoms: u32, set: &[bool]) -> bool
    ensures { IsTrue result → IsSetOver atoms set.now }
{
    set.len() as u64 == u64::from(atoms) + 1 && !has_atom(set, 0)
}

/// Whether a set keeps the rules of its own reduct and meets the compute statement.
fn keeps_own(program: &Program, set: &Set) -> bool {
    meets_compute(program, set) && keeps(program, set, set)
}

/// Whether a set keeps the rules of the reduct by another.
fn keeps(program: &Program, by: &Set, set: &Set) -> bool {
    let rules = program.rules.as_slice();
    rules.iter().all(|rule| holds_in(rule, by, set))
}

/// The clauses for the parts of a set.
fn clauses_within(alloc: Global, normal: &Normal, set: &Set) -> Result<Units, NoMemory>
    requires normal { IsNormal normal.now }
    requires over { IsSetOver normal.now.atoms set.now }
{
    let mut store = Store::open();
    complete_within(alloc, normal, set, &mut store)?;
    let mut clauses = Units::open();
    for at in 0..store.len() {
        clauses.push(alloc, Clause::from_slice(alloc, store.lits(ClauseRef(at)))?)?;
    }
    Ok(clauses)
}

/// Whether units hold in each proper subset of a set that keeps the rules of the reduct by it.
fn hold_in_smaller(
    alloc: Global,
    program: &Program,
    normal: &Normal,
    set: &Set,
    units: &Units,
) -> Result<bool, NoMemory> {
    if program.atoms >= 16 {
        return Ok(false);
    }
    for bits in 0..1u32 << program.atoms {
        let part = set_of(alloc, program.atoms, bits)?;
        if is_smaller(program, set, &part) && !hold_in(alloc, normal, set, &part, units)? {
            return Ok(false);
        }
    }
    Ok(true)
}

/// Whether a set is a proper subset of another that keeps the rules of the reduct by that one.
fn is_smaller(program: &Program, set: &Set, part: &Set) -> bool {
    let atoms = 0..program.atoms.saturating_add(1);
    for atom in atoms {
        if has_atom(part.as_slice(), atom) && !has_atom(set.as_slice(), atom) {
            return false;
        }
    }
    part.as_slice() != set.as_slice() && keeps(program, set, part)
}

/// Whether units hold in a part of a set, which judges the negative literals of bodies.
fn hold_in(
    alloc: Global,
    normal: &Normal,
    set: &Set,
    part: &Set,
    units: &Units,
) -> Result<bool, NoMemory> {
    let values = extension(alloc, normal, set.as_slice(), part.as_slice())?;
    let list = units.as_slice();
    Ok(
        list.iter()
            .all(|unit| has_true(values.as_slice(), unit.as_slice())),
    )
}
