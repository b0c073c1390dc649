// The set of the atoms that are true on a trail.
ghost use Rattle.std.specs.Prelude.{◌≡◌, ◌≤◌, ◌<◌, ◌^◌, IfOk};
ghost use Rattle.clause_store.specs.Trail.{is_yes, value_of, values_of};
ghost use Rattle.normal_program.specs.Clauses.{positive};
ghost use Rattle.normal_program.specs.Models.{set_of};

use clause_store::{Trail, Value, Var};
use ground_program::Set;
use item_list::NoMemory;
use normal_program::Normal;
use std::alloc::Global;

/// The atoms that are true on a trail.
pub(crate) fn atoms_on(alloc: Global, normal: &Normal, trail: &Trail) -> Result<Set, NoMemory>
    requires few { normal.now.atoms < 2 ^ 31 }
    requires over { normal.now.atoms ≤ trail.now.vars }
    ensures { IfOk result (λ set. set ≡ set_of normal.now (values_of trail.now)) }
{
    trail.vouch();
    let mut set = Set::open();
    set.push(alloc, false)?;
    for atom in 1..normal.atoms + 1 {
        set.push(alloc, is_true(trail, Var(atom)))?;
    }
    Ok(set)
}

/// Whether a variable is true on a trail.
fn is_true(trail: &Trail, var: Var) -> bool
    requires few { var.0 < 2 ^ 31 }
    requires first { 1 ≤ var.0 }
    requires last { var.0 ≤ trail.now.vars }
    ensures { result ≡ is_yes (value_of trail.now.steps (positive var.0)) }
{
    match trail.value(var.positive()) {
        Value::Yes => true,
        Value::No | Value::Unset => false,
    }
}
