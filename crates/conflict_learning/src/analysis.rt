// The analysis of a conflict: from the clause that is false, the last literal of the present level
// is replaced by the other literals of its reason, until one literal of that level is left. Then
// those of lower levels that reasons make superfluous go.
ghost use Rattle.std.specs.Prelude.{◌≡◌, ◌<◌, All, OnOk, IfOk};
ghost use Rattle.clause_store.specs.Clause.{HasNoVariableTwice, IsOver};
ghost use Rattle.clause_store.specs.Entailment.{Follows, Refutes, negations, others};
ghost use Rattle.clause_store.specs.Standing.{IsConflict, IsFalse};
ghost use Rattle.clause_store.specs.Trail.{IsTrailOf, present_level};
ghost use Rattle.conflict_learning.specs.Analysis.{HasPresent, IsAsserting, IsVariable, StandsIn};
ghost use Rattle.conflict_learning.specs.Analysis.{greatest_level};
ghost use Rattle.conflict_learning.specs.Walk.{IsDerived};

use crate::Learned;
use crate::minimisation::minimise;
use crate::walk::{Walk, level_at};
use clause_store::{Clause, ClauseRef, Lit, Store, Trail};
use item_list::NoMemory;
use std::alloc::Global;
use std::mem;

/// Learns from a conflict. After want of memory `learned` may hold any clause.
pub fn analyse(
    alloc: Global,
    store: &Store,
    trail: &Trail,
    conflict: ClauseRef,
    learned: &mut Learned,
) -> Result<(), NoMemory>
    requires of_store { IsTrailOf trail.now.steps store.now }
    requires conflict { IsConflict store.now trail.now.steps conflict }
    requires present { HasPresent store.now trail.now.steps conflict }
    requires above { 0 < present_level trail.now.steps }

    // The clause is implied, and unit propagation alone shows it.
    ensures follows { OnOk result (Follows store.now learned.new.clause) }
    ensures refuted { OnOk result (Refutes store.now (negations learned.new.clause)) }

    ensures stands { OnOk result (All (StandsIn store.now) learned.new.clause) }
    ensures is_false { OnOk result (All (IsFalse trail.now.steps) learned.new.clause) }
    ensures once { OnOk result (HasNoVariableTwice learned.new.clause) }
    ensures over { OnOk result (All (IsOver trail.now.vars) learned.new.clause) }

    ensures asserting { OnOk result
        (IsAsserting trail.now.steps learned.new.clause learned.new.asserting) }
    ensures back { OnOk result
        (learned.new.back ≡ greatest_level trail.now.steps
        (others learned.new.clause learned.new.asserting)) }
    // The variables that it visited are the trail's.
    ensures visited { OnOk result (All (IsVariable trail.now.vars) learned.new.visited) }
{
    let asserting = derive(alloc, store, trail, conflict, learned)?;
    minimise(alloc, store, trail, learned)?;
    learned.back = greatest_level(trail, learned.clause.as_slice());
    learned.clause.push(alloc, asserting)?;
    learned.asserting = asserting;
    Ok(())
}

/// Derives a clause: leaves its literals of lower levels in `learned` and answers that of the
/// present level.
fn derive(
    alloc: Global,
    store: &Store,
    trail: &Trail,
    conflict: ClauseRef,
    learned: &mut Learned,
) -> Result<Lit, NoMemory>
    requires of_store { IsTrailOf trail.now.steps store.now }
    requires conflict { IsConflict store.now trail.now.steps conflict }
    requires present { HasPresent store.now trail.now.steps conflict }
    requires above { 0 < present_level trail.now.steps }
    ensures derived { IfOk result (IsDerived store.now trail.now learned.new.clause) }
    ensures visited { OnOk result (All (IsVariable trail.now.vars) learned.new.visited) }
{
    let marks = learned.marks.take(alloc, trail.vars())?;
    let room = mem::replace(&mut learned.clause, Clause::open());
    let mut walk = Walk::begin(trail, marks, room);
    walk.note_all(alloc, trail, store.lits(conflict))?;
    let asserting = walk.resolve(alloc, store, trail)?;
    walk.list_visited(alloc, trail, &mut learned.visited)?;
    let (clause, unmarked) = walk.finish(trail);
    learned.marks.put_back(unmarked);
    learned.clause = clause;
    Ok(asserting)
}

/// The greatest level of the literals, or 0. A search goes back to it before it learns from a
/// clause that is false.
pub fn greatest_level(trail: &Trail, lits: &[Lit]) -> u32
    requires { All (IsOver trail.now.vars) lits.now }
    ensures { result ≡ greatest_level trail.now.steps lits.now }
{
    let mut greatest: u32 = 0;
    for lit in lits {
        greatest = greatest.max(level_at(trail, *lit));
    }
    greatest
}
