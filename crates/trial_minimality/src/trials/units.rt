// Whether what a test counted are units that hold in each smaller part, by slow checks.
ghost use Rattle.std.specs.Prelude.{◌≡◌, ◌<◌};
ghost use Rattle.ground_program.specs.Meaning.{IsSetOver};
ghost use Rattle.normal_program.specs.Limit.{IsNormal};

use clause_store::{Clause, ClauseRef, Store, Units};
use completion::complete_within;
use ground_program::Set;
use item_list::NoMemory;
use normal_program::Normal;
use plain_units::are_units;
use std::alloc::Global;
use trial_inputs::{extension, has_true, set_of};

/// Whether clauses are units beside the clauses for the parts of a set.
pub fn are_new(alloc: Global, normal: &Normal, set: &Set, units: &Units) -> Result<bool, NoMemory>
    requires normal { IsNormal normal.now }
    requires over { IsSetOver normal.now.atoms set.now }
{
    let mut store = Store::open();
    complete_within(alloc, normal, set, &mut store)?;
    let clauses = clauses_of(alloc, &store)?;
    are_units(alloc, &clauses, units)
}

/// The clauses of a store.
fn clauses_of(alloc: Global, store: &Store) -> Result<Units, NoMemory> {
    let mut clauses = Units::open();
    for at in 0..store.len() {
        let clause = Clause::from_slice(alloc, store.lits(ClauseRef(at)))?;
        clauses.push(alloc, clause)?;
    }
    Ok(clauses)
}

/// Whether clauses hold in all parts of a set, which are given by their bits.
pub fn hold_in_parts(
    alloc: Global,
    normal: &Normal,
    set: &Set,
    parts: &[u32],
    units: &Units,
) -> Result<bool, NoMemory>
    requires { normal.now.atoms < 16 }
{
    for bits in parts {
        let part = set_of(alloc, normal.atoms, *bits)?;
        let values = extension(alloc, normal, set.as_slice(), part.as_slice())?;
        if !hold(values.as_slice(), units) {
            return Ok(false);
        }
    }
    Ok(true)
}

/// Whether an assignment meets all clauses.
fn hold(values: &[bool], units: &Units) -> bool {
    units
        .as_slice()
        .iter()
        .all(|unit| has_true(values, unit.as_slice()))
}
