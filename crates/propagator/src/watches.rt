// The clauses that propagation goes over. As it goes over all of them each time, no assignment has
// to be followed between two calls.
ghost use Rattle.std.specs.Prelude.{◌≡◌, ◌<◌, ◌^◌, [], length, IfOk, OnErr};
ghost use Rattle.clause_store.specs.Clause.{AreOver};
ghost use Rattle.clause_store.specs.Standing.{AreFollowed, HasGoneBack};
ghost use Rattle.propagator.specs.Watched.{IsAttached};

use crate::entry::Entry;
use clause_store::{ClauseRef, Store, Trail};
use item_list::{List, NoMemory};
use std::alloc::Global;
use std::marker::Model;

/// The attached clauses, and the assignments that are followed.
#[derive(Debug, Drop)]
pub struct Watches {
    vars: u32,
    clauses: List<Entry>,
}

impl Model for Watches {
    ghost use Rattle.std.specs.Prelude.{[]};
    ghost use Rattle.propagator.specs.Watched.{Watched};

    ghost Value = { Watched };

    ghost view = { λ it. record { vars = it.vars; clauses = it.clauses; followed = [] } };
}

impl Watches {
    /// The watches over the variables 1 to `vars`: no clause is attached and no assignment
    /// followed.
    pub fn open(_alloc: Global, vars: u32) -> Result<Watches, NoMemory>
        requires { vars < 2 ^ 31 }
        ensures { IfOk result (λ it. it ≡ record { vars = vars; clauses = []; followed = [] }) }
    {
        Ok(Watches {
            vars,
            clauses: List::open(),
        })
    }

    /// Puts the clause `at` of the store last; it may be attached already. After want of memory the
    /// watches are as before.
    pub fn attach(
        &mut self,
        alloc: Global,
        store: &Store,
        trail: &Trail,
        at: ClauseRef,
    ) -> Result<(), NoMemory>
        requires exists { at.0 < length store.now }
        requires same_vars { self.old.vars ≡ trail.now.vars }
        requires over { AreOver trail.now.vars store.now }
        ensures ok { IfOk result (λ _. IsAttached store.now at self.old self.new) }
        ensures err { OnErr result (self.new ≡ self.old) }
    {
        let _ = trail;
        self.clauses.push(alloc, Entry::of(store, at))
    }

    /// Follows only assignments of the trail. It is called after each going back of the trail: what
    /// is followed was a front of an earlier trail, and the trail is what that has up to a level.
    pub fn rewind(&mut self, trail: &Trail)
        requires same_vars { self.old.vars ≡ trail.now.vars }
        requires gone_back { HasGoneBack trail.now self.old.followed }
        ensures rest { self.new ≡ record self.old { followed = self.new.followed } }
        ensures followed { AreFollowed trail.now.steps self.new.followed }
    {
        prove_eq!(self.vars, trail.vars());
    }

    /// The attached clauses in order.
    pub(crate) fn entries(&self) -> &[Entry]
        ensures entries { result.now ≡ self.now.clauses }
        ensures followed { self.now.followed ≡ [] }
    {
        self.clauses.as_slice()
    }
}
