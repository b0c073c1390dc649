// The clauses of a store are attached one after another.
ghost use Rattle.std.specs.Prelude.{◌≡◌, [], IfOk};
ghost use Rattle.clause_store.specs.Clause.{AreOver};
ghost use Rattle.propagator.specs.Watched.{IsReady};

use clause_store::{ClauseRef, Store, Trail};
use item_list::NoMemory;
use std::alloc::Global;
use watched_literals::Watches;

/// Watches to which all clauses of a store are attached, over a trail with nothing assigned.
pub fn attach_all(alloc: Global, store: &Store, trail: &Trail) -> Result<Watches, NoMemory>
    requires over { AreOver trail.now.vars store.now }
    requires empty { trail.now.steps ≡ [] }
    ensures { IfOk result (IsReady store.now trail.now) }
{
    let mut watches = Watches::open(alloc, trail.vars())?;
    for at in 0..store.len() {
        watches.attach(alloc, store, trail, ClauseRef(at))?;
    }
    Ok(watches)
}
