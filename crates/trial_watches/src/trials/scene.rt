// A store, a trail and watches that are ready for propagation.
ghost use Rattle.std.specs.Prelude.{◌<◌, ◌^◌, IfOk};
ghost use Rattle.propagator.specs.Watched.{IsReady};

use crate::trials::clauses::clause_over;
use clause_store::{ClauseRef, Lit, Store, Trail, Value};
use item_list::NoMemory;
use std::alloc::Global;
use watched_literals::{Watches, propagate};

/// Clauses, a trail of them, and watches that are ready for propagation.
#[derive(Drop)]
pub struct Scene {
    pub store: Store,
    pub trail: Trail,
    pub watches: Watches,
}

impl Scene {
    /// No clause and nothing assigned, over the variables 1 to `vars`.
    pub fn open(alloc: Global, vars: u32) -> Result<Scene, NoMemory>
        requires { vars < 2 ^ 31 }
        ensures { IfOk result (λ it. IsReady it.store it.trail it.watches) }
    {
        let store = Store::open();
        let trail = Trail::open(alloc, vars)?;
        let watches = Watches::open(alloc, vars)?;
        Ok(Scene {
            store,
            trail,
            watches,
        })
    }

    /// Puts the clause of codes last, without those that it may not have, and gives its number.
    /// After want of memory the scene isn't ready any more.
    pub fn add(&mut self, alloc: Global, codes: &[u32]) -> Result<ClauseRef, NoMemory>
        requires { IsReady self.old.store self.old.trail self.old.watches }
        ensures { IfOk result (λ _. IsReady self.new.store self.new.trail self.new.watches) }
    {
        let clause = clause_over(alloc, self.trail.vars(), codes)?;
        let at = self.store.add(alloc, clause.as_slice())?;
        self.watches.attach(alloc, &self.store, &self.trail, at)?;
        Ok(at)
    }

    /// Decides a literal if it is unset, and propagates.
    pub fn decide(&mut self, lit: Lit) -> Option<ClauseRef>
        requires { IsReady self.old.store self.old.trail self.old.watches }
        ensures { IsReady self.new.store self.new.trail self.new.watches }
    {
        self.decide_alone(lit);
        self.propagate()
    }

    /// Decides a literal if it is unset.
    pub fn decide_alone(&mut self, lit: Lit)
        requires { IsReady self.old.store self.old.trail self.old.watches }
        ensures { IsReady self.new.store self.new.trail self.new.watches }
    {
        if self.trail.has(lit) {
            if let Value::Unset = self.trail.value(lit) {
                self.trail.decide(lit);
            }
        }
    }

    /// Propagates.
    pub fn propagate(&mut self) -> Option<ClauseRef>
        requires { IsReady self.old.store self.old.trail self.old.watches }
        ensures { IsReady self.new.store self.new.trail self.new.watches }
    {
        propagate(&self.store, &mut self.trail, &mut self.watches)
    }

    /// Goes back to a level, if the present one isn't lower.
    pub fn back_to(&mut self, level: u32)
        requires { IsReady self.old.store self.old.trail self.old.watches }
        ensures { IsReady self.new.store self.new.trail self.new.watches }
    {
        if level <= self.trail.level() {
            self.trail.back_to(level);
            self.watches.rewind(&self.trail);
        }
    }

    /// Whether a literal is true.
    pub fn is_true(&self, lit: Lit) -> bool {
        self.trail.has(lit) && self.trail.value(lit) == Value::Yes
    }
}
