// The part of the pair on a trail.
ghost use Rattle.std.specs.Prelude.{◌≡◌, ◌≤◌, ◌<◌, ◌+◌, ◌*◌, ◌^◌, IfOk};
ghost use Rattle.clause_store.specs.Trail.{is_yes, value_of};
ghost use Rattle.normal_program.specs.Clauses.{positive};
ghost use Rattle.kept_minimality.specs.Asking.{part_of};

use clause_store::{Trail, Value, Var};
use ground_program::Set;
use item_list::NoMemory;
use std::alloc::Global;

/// The part of the pair on a trail, of a normal form with so many atoms: these stand for it behind
/// those of the whole.
pub(crate) fn part_on(alloc: Global, trail: &Trail, atoms: u32) -> Result<Set, NoMemory>
    requires { 2 * atoms ≤ trail.now.vars }
    ensures { IfOk result (λ part. part ≡ part_of atoms trail.now) }
{
    let _vars = trail.vars();
    let mut part = Set::open();
    part.push(alloc, false)?;
    for at in 0..atoms {
        part.push(alloc, is_true(trail, Var(atoms + 1 + at)))?;
    }
    Ok(part)
}

/// Whether a variable is true on a trail.
fn is_true(trail: &Trail, var: Var) -> bool
    requires few { var.0 < 2 ^ 31 }
    requires first { 1 ≤ var.0 }
    requires last { var.0 ≤ trail.now.vars }
    ensures { result ≡ is_yes (value_of trail.now.steps (positive var.0)) }
{
    match trail.value(var.positive()) {
        Value::Yes => true,
        Value::No | Value::Unset => false,
    }
}
