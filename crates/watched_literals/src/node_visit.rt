// What becomes of the clause of a node whose literal is false, and what is done where its other
// literal is implied.
ghost use Rattle.std.specs.Prelude.{◌≡◌};
ghost use Rattle.clause_store.specs.Clause.{IsOver};
ghost use Rattle.clause_store.specs.Standing.{IsFalse};
ghost use Rattle.clause_store.specs.Trail.{IsTrail, IsTrailOf, IsReasonFor, value_of};
ghost use Rattle.propagator.specs.Fixpoint.{Extends};
ghost use Rattle.watched_literals.specs.Walking.{IsSeat, IsSeen, IsForced, IsKept};

use crate::chains::partner;
use crate::cursor::Cursor;
use crate::entry::Entry;
use crate::settled::is_true_by;
use crate::tables::{BINARY, Tables};
use crate::visit::{Visit, visit_clause, without_others};
use clause_store::{ClauseRef, Lit, Store, Trail, Value};

/// What becomes of the clause of the present node. One of which two literals are left is settled
/// without a look into the store.
pub fn visit_node(
    store: &Store,
    trail: &Trail,
    entries: &[Entry],
    tables: &Tables,
    looked: &mut u64,
    cursor: Cursor,
) -> Visit
    requires { IsSeat store.now entries.now trail.now tables.now cursor.lit cursor.at }
    ensures { IsSeen entries.now trail.now tables.now cursor.level cursor.at result }
{
    let other = tables.chains.nodes[partner(cursor.at) as usize].lit;
    if is_true_by(trail, other, cursor.level) {
        return Visit::Stays;
    }
    let row = cursor.at as usize / 2;
    let start = tables.saved[row];
    if start == BINARY {
        return without_others(trail, other);
    }
    *looked = looked.saturating_add(1);
    visit_clause(store.lits(entries[row].at()), trail, start as usize, other)
}

/// Makes the other watched literal of the clause of the present node true. Where that is at a
/// higher level than that of the walk, the clause becomes pending.
pub fn imply(
    store: &Store,
    trail: &mut Trail,
    entries: &[Entry],
    tables: &mut Tables,
    cursor: Cursor,
)
    requires seat { IsSeat store.now entries.now trail.old tables.old cursor.lit cursor.at }
    requires forced { IsForced entries.now trail.old.steps tables.old cursor.at }
    requires of_store { IsTrailOf trail.old.steps store.now }
    ensures extends { Extends trail.old trail.new }
    ensures of_store { IsTrailOf trail.new.steps store.now }
    ensures is_trail { IsTrail trail.new }
    ensures kept { IsKept trail.new tables.old tables.new cursor.level cursor.at }
{
    let other = tables.chains.nodes[partner(cursor.at) as usize].lit;
    let row = cursor.at / 2;
    make_true(store, trail, other, entries[row as usize].at());
    if trail.level() > cursor.level {
        tables.pending.mark(row);
    }
}

/// Makes a literal that isn't false true because a clause forces it, if it isn't true.
fn make_true(store: &Store, trail: &mut Trail, lit: Lit, why: ClauseRef)
    requires over { IsOver trail.old.vars lit }
    requires not_false { ¬ IsFalse trail.old.steps lit }
    requires forced { IsReasonFor store.now trail.old.steps lit why }
    requires of_store { IsTrailOf trail.old.steps store.now }
    ensures extends { Extends trail.old trail.new }
    ensures of_store { IsTrailOf trail.new.steps store.now }
    ensures is_trail { IsTrail trail.new }
    ensures yes { value_of trail.new.steps lit ≡ Value.Yes }
{
    match trail.value(lit) {
        Value::Unset => trail.assign(store, lit, why),
        Value::Yes | Value::No => trail.vouch(),
    }
}
