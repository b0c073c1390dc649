// Propagation in the plainest way: over all clauses, again and again, until nothing changes.
ghost use Rattle.std.specs.Prelude.{◌≡◌, length, IfNone, IfSome};
ghost use Rattle.clause_store.specs.Clause.{AreOver};
ghost use Rattle.clause_store.specs.Trail.{IsTrailOf};
ghost use Rattle.clause_store.specs.Standing.{IsConflict};
ghost use Rattle.propagator.specs.Watched.{AreNamed, AreQuietOn};
ghost use Rattle.propagator.specs.Fixpoint.{Extends};

use crate::entry::Entry;
use crate::standing::Standing;
use clause_store::{ClauseRef, Store, Trail};

/// Goes over the clauses until none is false or a unit, or until one is false, which is given.
pub fn scan(store: &Store, trail: &mut Trail, entries: &[Entry]) -> Option<ClauseRef>
    requires named { AreNamed store.now entries.now }
    requires over { AreOver trail.old.vars store.now }
    requires of_store { IsTrailOf trail.old.steps store.now }
    ensures none { IfNone result (AreQuietOn trail.new.steps entries.now) }
    ensures some { IfSome result (IsConflict store.now trail.new.steps) }
    ensures extends { Extends trail.old trail.new }
    ensures of_store { IsTrailOf trail.new.steps store.now }
{
    'passes: loop {
        let before = trail.steps().len();
        if let Some(at) = pass(store, trail, entries) {
            return Some(at);
        }
        if trail.steps().len() == before {
            return None;
        }
    }
}

/// Goes over the clauses once. Where nothing was assigned and none is false, none is a unit.
fn pass(store: &Store, trail: &mut Trail, entries: &[Entry]) -> Option<ClauseRef>
    requires named { AreNamed store.now entries.now }
    requires over { AreOver trail.old.vars store.now }
    requires of_store { IsTrailOf trail.old.steps store.now }
    ensures none { IfNone result (
        length trail.new.steps ≡ length trail.old.steps → AreQuietOn trail.new.steps entries.now) }
    ensures some { IfSome result (IsConflict store.now trail.new.steps) }
    ensures extends { Extends trail.old trail.new }
    ensures of_store { IsTrailOf trail.new.steps store.now }
{
    for entry in entries {
        let at = entry.at();
        match Standing::of(store.lits(at), trail) {
            Standing::Satisfied | Standing::Open => {}
            Standing::Unit(lit) => trail.assign(store, lit, at),
            Standing::False => return Some(at),
        }
    }
    None
}
