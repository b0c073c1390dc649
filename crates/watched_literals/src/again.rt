// The looks at pending clauses. One whose watched literals are settled is pending no more.
ghost use Rattle.std.specs.Prelude.{◌≡◌, ◌<◌, ◌*◌, ◌+◌, true, false, length, IfNone, IfSome};
ghost use Rattle.std.specs.Prelude.{All, IsTrue, map, get_or};
ghost use Rattle.clause_store.specs.Clause.{IsOver, AreOver};
ghost use Rattle.clause_store.specs.Standing.{IsConflict, as_followed};
ghost use Rattle.clause_store.specs.Trail.{IsTrail, IsTrailOf};
ghost use Rattle.propagator.specs.Fixpoint.{Extends};
ghost use Rattle.watched_literals.specs.Chains.{lit_of};
ghost use Rattle.watched_literals.specs.Watching.{IsRow, HoldsForGood};
ghost use Rattle.watched_literals.specs.Walking.{IsRunning, ArePendingQuiet, IsQuietAt};
ghost use Rattle.watched_literals.specs.Walking.{IsSettledRow, HasLooked, SettlesAll};

use crate::entry::Entry;
use crate::settled::{holds_for_good, is_true_by};
use crate::standing::Standing;
use crate::tables::Tables;
use clause_store::{ClauseRef, Lit, Store, Trail, Value};

/// Looks at each pending clause, and gives one that is false. Where nothing was assigned, none of
/// them is false or a unit.
pub fn look_again(
    store: &Store,
    trail: &mut Trail,
    entries: &[Entry],
    tables: &mut Tables,
    looked: &mut u64,
    next: usize,
) -> Option<ClauseRef>
    requires running { IsRunning store.now entries.now trail.old tables.old next }
    ensures none { IfNone result (length trail.new.steps ≡ length trail.old.steps
        → ArePendingQuiet trail.new.steps entries.now tables.new.pending.waits) }
    ensures some { IfSome result (IsConflict store.now trail.new.steps) }
    ensures running { IsRunning store.now entries.now trail.new tables.new next }
    ensures extends { Extends trail.old trail.new }
{
    let mut at = 0;
    while at < tables.pending.rows().len() {
        let row = tables.pending.rows()[at];
        let number = entries[row as usize].at();
        *looked = looked.saturating_add(1);
        if assign_unit(store, trail, number) {
            return Some(number);
        }
        at = settle(store, trail, entries, tables, at, next);
    }
    None
}

/// Assigns the literal of a clause that is a unit. Tells whether the clause is false.
fn assign_unit(store: &Store, trail: &mut Trail, number: ClauseRef) -> bool
    requires exists { number.0 < length store.now }
    requires over { AreOver trail.old.vars store.now }
    requires of_store { IsTrailOf trail.old.steps store.now }
    ensures quiet { result ≡ false → length trail.new.steps ≡ length trail.old.steps
        → IsQuietAt store.now trail.new.steps number }
    ensures fails { result ≡ true → IsConflict store.now trail.new.steps number }
    ensures extends { Extends trail.old trail.new }
    ensures of_store { IsTrailOf trail.new.steps store.now }
    ensures is_trail { IsTrail trail.new }
{
    trail.vouch();
    match Standing::of(store.lits(number), trail) {
        Standing::Satisfied | Standing::Open => false,
        Standing::Unit(lit) => {
            trail.assign(store, lit, number);
            false
        }
        Standing::False => true,
    }
}

/// Settles the pending clause at a place, if its watched literals are settled, and gives the place
/// of the next look.
fn settle(
    store: &Store,
    trail: &Trail,
    entries: &[Entry],
    tables: &mut Tables,
    at: usize,
    next: usize,
) -> usize
    requires running { IsRunning store.now entries.now trail.now tables.old next }
    requires within { at < length tables.old.pending.stack }
    ensures running { IsRunning store.now entries.now trail.now tables.new next }
    ensures looked { HasLooked entries.now trail.now.steps tables.old.pending.stack
        tables.new.pending.stack at result }
{
    let _ = next;
    let row = tables.pending.rows()[at];
    let lits = store.lits(entries[row as usize].at());
    if is_settled(trail, tables, lits, row as usize) {
        tables.pending.settle(at);
        at
    } else {
        at + 1
    }
}

/// Whether the watched literals of a clause are settled.
fn is_settled(trail: &Trail, tables: &Tables, lits: &[Lit], row: usize) -> bool
    requires is_trail { IsTrail trail.now }
    requires nodes { 2 * row + 1 < length tables.now.chains.nodes.items }
    requires row { IsRow (map as_followed trail.now.steps) lits.now
        (get_or tables.now.saved.items (row) 0)
        (lit_of tables.now.chains.nodes.items (2 * row))
        (lit_of tables.now.chains.nodes.items (2 * row + 1)) }
    requires over { All (IsOver trail.now.vars) lits.now }
    ensures { IsTrue result → IsSettledRow (map as_followed trail.now.steps) lits.now
        (lit_of tables.now.chains.nodes.items (2 * row))
        (lit_of tables.now.chains.nodes.items (2 * row + 1)) }
{
    let one = tables.chains.nodes[2 * row].lit;
    let two = tables.chains.nodes[2 * row + 1].lit;
    if one.0 == 0 {
        return holds_for_good(trail, lits);
    }
    settles(trail, one, two) && settles(trail, two, one)
}

/// Whether another literal is true at a level that isn't higher where a literal is false.
fn settles(trail: &Trail, lit: Lit, other: Lit) -> bool
    requires is_trail { IsTrail trail.now }
    requires lit { IsOver trail.now.vars lit }
    requires other { IsOver trail.now.vars other }
    ensures { IsTrue result → SettlesAll (map as_followed trail.now.steps) lit other }
{
    match trail.value(lit) {
        Value::No => match trail.level_of(lit.var()) {
            Some(level) => is_true_by(trail, other, level),
            None => false,
        },
        Value::Yes | Value::Unset => true,
    }
}
