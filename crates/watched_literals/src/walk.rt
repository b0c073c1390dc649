// The walk along the chain of a literal that became false. Each node of the chain is visited once:
// it stays, or goes into the chain of another literal of its clause.
ghost use Rattle.std.specs.Prelude.{◌≡◌, ◌≢◌, ◌<◌, ◌+◌, true, false, length, IfNone, IfSome};
ghost use Rattle.clause_store.specs.Standing.{IsConflict};
ghost use Rattle.propagator.specs.Fixpoint.{Extends};
ghost use Rattle.watched_literals.specs.Chains.{none};
ghost use Rattle.watched_literals.specs.Walking.{IsRunning, IsWalking, HasPassed, HasFailed};

use crate::chains::NONE;
use crate::cursor::Cursor;
use crate::entry::Entry;
use crate::node_visit::{imply, visit_node};
use crate::tables::Tables;
use crate::visit::Visit;
use clause_store::{ClauseRef, Store, Trail};

/// Visits the clauses that are watched at the literal that the assignment at a place made false,
/// and gives one that is false.
pub fn walk(
    store: &Store,
    trail: &mut Trail,
    entries: &[Entry],
    tables: &mut Tables,
    looked: &mut u64,
    place: usize,
) -> Option<ClauseRef>
    requires running { IsRunning store.now entries.now trail.old tables.old place }
    requires within { place < length trail.old.steps }
    ensures none { IfNone result (
        IsRunning store.now entries.now trail.new tables.new (place + 1)) }
    ensures some { IfSome result (IsConflict store.now trail.new.steps) }
    ensures running { IsRunning store.now entries.now trail.new tables.new place }
    ensures extends { Extends trail.old trail.new }
{
    let mut cursor = begin(store, trail, entries, tables, place);
    while cursor.at != NONE {
        if pass(store, trail, entries, tables, looked, &mut cursor) {
            return Some(entries[cursor.at as usize / 2].at());
        }
    }
    None
}

/// The beginning of a walk.
fn begin(store: &Store, trail: &Trail, entries: &[Entry], tables: &Tables, place: usize) -> Cursor
    requires running { IsRunning store.now entries.now trail.now tables.now place }
    requires within { place < length trail.now.steps }
    ensures walking { IsWalking store.now entries.now trail.now tables.now result }
    ensures place { result.place ≡ place }
{
    let _ = store;
    let _ = entries;
    let step = trail.steps()[place];
    let lit = step.lit.negated();
    Cursor {
        place,
        lit,
        level: step.level,
        last: NONE,
        at: tables.chains.heads[lit.0 as usize],
    }
}

/// Goes past the present node. Where its clause is false it stays there, and says so.
fn pass(
    store: &Store,
    trail: &mut Trail,
    entries: &[Entry],
    tables: &mut Tables,
    looked: &mut u64,
    cursor: &mut Cursor,
) -> bool
    requires walking { IsWalking store.now entries.now trail.old tables.old cursor.old }
    requires some { cursor.old.at ≢ none }
    ensures goes { result ≡ false → HasPassed store.now entries.now trail.new
        tables.old tables.new cursor.old cursor.new }
    ensures fails { result ≡ true → HasFailed store.now entries.now trail.new tables.new
        cursor.new }
    ensures place { cursor.new.place ≡ cursor.old.place }
    ensures extends { Extends trail.old trail.new }
{
    let at = cursor.at;
    let next = tables.chains.nodes[at as usize].next;
    match visit_node(store, trail, entries, tables, looked, *cursor) {
        Visit::Stays => {
            cursor.stay(next);
            false
        }
        Visit::Implies => {
            imply(store, trail, entries, tables, *cursor);
            cursor.stay(next);
            false
        }
        Visit::Moves(to, place) => {
            tables.move_node(cursor.lit, to, cursor.last, at, next, place);
            cursor.leave(next);
            false
        }
        Visit::IsFalse => true,
    }
}
