// The clauses that a tester hands on.
ghost use Rattle.std.specs.Prelude.{◌≤◌, ◌↔◌, ◌∷◌, [], All, IsTrue, OnOk};
ghost use Rattle.clause_store.specs.Clause.{variable};
ghost use Rattle.normal_program.specs.Limit.{IsNormal};
ghost use Rattle.normal_program.specs.Normal.{greatest_body_var};
ghost use Rattle.coherence_test.specs.Sharing.{AreNoted, AreShareable, IsTellable, IsTold};

use clause_store::{Clause, Lit, Short};
use item_list::NoMemory;
use normal_program::Normal;
use short_clauses::short_of;

/// Notes those of the clauses that have one to three literals and no selector.
pub(crate) fn note(normal: &Normal, units: &[Clause], left: &mut Vec<Short>) -> Result<(), NoMemory>
    requires normal { IsNormal normal.now }
    requires units { All (IsTellable normal.now) units.now }
    requires left { AreShareable normal.now left.old.items }
    ensures noted { OnOk result (AreNoted normal.now units.now left.old.items left.new.items) }
    ensures left { AreShareable normal.now left.new.items }
{
    for unit in units {
        note_one(normal, unit.as_slice(), left)?;
    }
    Ok(())
}

/// Notes a clause, if it has one to three literals and no selector.
fn note_one(normal: &Normal, unit: &[Lit], left: &mut Vec<Short>) -> Result<(), NoMemory>
    requires normal { IsNormal normal.now }
    requires unit { IsTellable normal.now unit.now }
    requires left { AreShareable normal.now left.old.items }
    ensures noted { OnOk result
        (AreNoted normal.now (unit.now ∷ []) left.old.items left.new.items) }
    ensures left { AreShareable normal.now left.new.items }
{
    if may_tell(unit, normal.greatest_body_var()) {
        left.push(short_of(unit))?;
    }
    Ok(())
}

/// Whether a clause has one to three literals, and no variable above the greatest of a body.
fn may_tell(unit: &[Lit], greatest: u32) -> bool
    ensures { IsTrue result ↔ IsTold greatest unit.now }
{
    let is_short = 1 <= unit.len() && unit.len() <= 3;
    is_short && is_low(unit, greatest)
}

/// Whether no variable is above the greatest of a body.
fn is_low(unit: &[Lit], greatest: u32) -> bool
    ensures { IsTrue result ↔ All (λ lit. variable lit ≤ greatest) unit.now }
{
    unit.iter().all(|lit| lit.var().0 <= greatest)
}
