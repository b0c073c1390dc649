ghost use Rattle.std.specs.Prelude.{◌≡◌, IfNone, IfSome};
ghost use Rattle.clause_store.specs.Standing.{IsConflict};
ghost use Rattle.propagator.specs.Watched.{IsReady};
ghost use Rattle.propagator.specs.Fixpoint.{IsFixpoint, Extends};

use crate::Watches;
use clause_store::{ClauseRef, Store, Trail};

/// Assigns what the clauses of the store force, until nothing is left to do or a clause is false,
/// which is given. It takes no memory.
pub fn propagate(store: &Store, trail: &mut Trail, watches: &mut Watches) -> Option<ClauseRef>
    requires { IsReady store.now trail.old watches.old }
    ensures none { IfNone result (IsFixpoint store.now trail.new.steps) }
    ensures some { IfSome result (IsConflict store.now trail.new.steps) }
    ensures extends { Extends trail.old trail.new }
    ensures ready { IsReady store.now trail.new watches.new }
    ensures rest { watches.new ≡ record watches.old { followed = watches.new.followed } }
{
    watches.follow(store, trail)
}
