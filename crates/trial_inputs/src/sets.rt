// Sets of atoms, and what holds in them by the meaning of bodies and clauses.
ghost use Rattle.std.specs.Prelude.{◌≡◌, ◌<◌, IfOk};
ghost use Rattle.ground_program.specs.Meaning.{IsSetOver};

use clause_store::Lit;
use ground_program::{Set, has_atom};
use item_list::NoMemory;
use normal_program::{BodyOf, Normal};
use std::alloc::Global;

/// The set of the atoms whose bits are on: bit 0 is that of atom 1.
pub fn set_of(alloc: Global, atoms: u32, bits: u32) -> Result<Set, NoMemory>
    requires { atoms < 32 }
    ensures { IfOk result (IsSetOver atoms) }
{
    let mut set = Set::open();
    set.push(alloc, false)?;
    for atom in 0..atoms {
        set.push(alloc, bits >> atom & 1 == 1)?;
    }
    Ok(set)
}

/// Whether a body holds in a set by another, which judges its negative literals.
pub fn body_holds(body: &BodyOf, by: &[bool], set: &[bool]) -> bool {
    let mut weight = 0u64;
    for part in body.parts.as_slice() {
        let counts = if part.lit.negated {
            !has_atom(by, part.lit.atom)
        } else {
            has_atom(set, part.lit.atom)
        };
        if counts {
            weight = weight.saturating_add(part.weight);
        }
    }
    weight >= u64::from(body.bound)
}

/// The values of a set's atoms, then of each body whether it holds in the set by another.
pub fn extension(
    alloc: Global,
    normal: &Normal,
    by: &[bool],
    set: &[bool],
) -> Result<Set, NoMemory> {
    let mut values = Set::from_slice(alloc, set)?;
    for body in normal.bodies.as_slice() {
        values.push(alloc, body_holds(body, by, set))?;
    }
    Ok(values)
}

/// Whether an assignment makes a literal true.
pub fn is_true(values: &[bool], lit: Lit) -> bool {
    has_atom(values, lit.var().0) != lit.is_negated()
}

/// Whether an assignment makes some literal true.
pub fn has_true(values: &[bool], lits: &[Lit]) -> bool {
    lits.iter().any(|lit| is_true(values, *lit))
}
