// Whether a literal is true at a level that isn't higher than another.
ghost use Rattle.std.specs.Prelude.{◌≡◌, ◌↔◌, ◌≤◌, All, IsTrue, map};
ghost use Rattle.clause_store.specs.Clause.{IsOver};
ghost use Rattle.clause_store.specs.Laws.{IsAssignedBy};
ghost use Rattle.clause_store.specs.Standing.{as_followed};
ghost use Rattle.clause_store.specs.Trail.{present_level, value_of};
ghost use Rattle.watched_literals.specs.Watching.{IsTrueBy, HoldsForGood};

use clause_store::{Lit, Trail, Value};

/// Whether a literal is true by an assignment of that level or a lower one.
pub fn is_true_by(trail: &Trail, lit: Lit, level: u32) -> bool
    requires { IsOver trail.now.vars lit }
    ensures { IsTrue result → IsTrueBy level (map as_followed trail.now.steps) lit }
{
    is_true(trail, lit) && (trail.level() <= level || is_assigned_by(trail, lit, level))
}

/// Whether a literal is true.
fn is_true(trail: &Trail, lit: Lit) -> bool
    requires { IsOver trail.now.vars lit }
    ensures { IsTrue result ↔ (value_of trail.now.steps lit ≡ Value.Yes) }
{
    match trail.value(lit) {
        Value::Yes => true,
        Value::No | Value::Unset => false,
    }
}

/// Whether the variable of a literal was assigned at that level or before.
fn is_assigned_by(trail: &Trail, lit: Lit, level: u32) -> bool
    requires { IsOver trail.now.vars lit }
    ensures { IsTrue result → IsAssignedBy level trail.now.steps lit }
{
    match trail.level_of(lit.var()) {
        Some(own) => own <= level,
        None => false,
    }
}

/// Whether an assignment of level 0 makes a literal of a clause true.
pub fn holds_for_good(trail: &Trail, lits: &[Lit]) -> bool
    requires { All (IsOver trail.now.vars) lits.now }
    ensures { IsTrue result → HoldsForGood (map as_followed trail.now.steps) lits.now }
{
    for lit in lits {
        if is_true_by(trail, *lit, 0) {
            return true;
        }
    }
    false
}
