// Propagation: the chains of the assignments that aren't followed yet are walked, and then the
// pending clauses are looked at, until nothing more is assigned or a clause is false.
ghost use Rattle.std.specs.Prelude.{◌≡◌, ◌≤◌, length, IfNone, IfSome};
ghost use Rattle.clause_store.specs.Standing.{IsConflict};
ghost use Rattle.propagator.specs.Fixpoint.{Extends};
ghost use Rattle.propagator.specs.Watched.{AreQuietOn};
ghost use Rattle.watched_literals.specs.Walking.{IsRunning};

use crate::again::look_again;
use crate::entry::Entry;
use crate::tables::Tables;
use crate::walk::walk;
use clause_store::{ClauseRef, Store, Trail};

/// Assigns what the attached clauses force, until none is false or a unit, or until one is false,
/// which is given.
pub fn run(
    store: &Store,
    trail: &mut Trail,
    entries: &[Entry],
    tables: &mut Tables,
    looked: &mut u64,
    next: &mut usize,
) -> Option<ClauseRef>
    requires running { IsRunning store.now entries.now trail.old tables.old next.old }
    ensures none { IfNone result (AreQuietOn trail.new.steps entries.now) }
    ensures some { IfSome result (IsConflict store.now trail.new.steps) }
    ensures running { IsRunning store.now entries.now trail.new tables.new next.new }
    ensures extends { Extends trail.old trail.new }
{
    'passes: loop {
        if let Some(at) = follow(store, trail, entries, tables, looked, next) {
            return Some(at);
        }
        let before = trail.steps().len();
        if let Some(at) = look_again(store, trail, entries, tables, looked, *next) {
            return Some(at);
        }
        if trail.steps().len() == before {
            return None;
        }
    }
}

/// Walks the chains of the assignments that aren't followed yet, and gives a clause that is false.
fn follow(
    store: &Store,
    trail: &mut Trail,
    entries: &[Entry],
    tables: &mut Tables,
    looked: &mut u64,
    next: &mut usize,
) -> Option<ClauseRef>
    requires running { IsRunning store.now entries.now trail.old tables.old next.old }
    ensures none { IfNone result (length trail.new.steps ≤ next.new) }
    ensures some { IfSome result (IsConflict store.now trail.new.steps) }
    ensures running { IsRunning store.now entries.now trail.new tables.new next.new }
    ensures extends { Extends trail.old trail.new }
{
    while *next < trail.steps().len() {
        if let Some(at) = walk(store, trail, entries, tables, looked, *next) {
            return Some(at);
        }
        *next += 1;
    }
    None
}
