// Store, trail and watches under one invariant. Where memory lacks between the store, which has a
// new clause then, and the watches, which lack it, nothing is ready any more: the state is dead.
ghost use Rattle.std.specs.Prelude.{◌≡◌, ◌<◌, ◌≤◌, ◌^◌, ◌+◌, [], ◌∷◌, ◌++◌, length, All, Some};
ghost use Rattle.std.specs.Prelude.{false, true, IfOk, OnOk, OnErr, IfSome, IfNone};
ghost use Rattle.clause_store.specs.Clause.{AreOver, IsClause, IsOver};
ghost use Rattle.clause_store.specs.Standing.{IsConflict};
ghost use Rattle.clause_store.specs.Trail.{IsReasonFor, IsTrail, IsTrailOf, present_level, up_to};
ghost use Rattle.clause_store.specs.Trail.{value_of, with_last};
ghost use Rattle.propagator.specs.Fixpoint.{Extends, IsFixpoint};
ghost use Rattle.search_state.specs.State.{decided, gone_back, opened};

use crate::attaching::attach_all;
use clause_store::{ClauseRef, Lit, Store, Trail, Value};
use item_list::NoMemory;
use std::alloc::Global;
use std::marker::Model;
use watched_literals::{Watches, propagate};

/// Clauses, a trail of them, and watches that are ready for propagation.
///
/// Want of memory while a clause is added leaves it dead. A dead state may still be read, but
/// nothing else may be asked of it.
#[derive(Debug, Drop)]
pub struct SearchState {
    store: Store,
    trail: Trail,
    watches: Watches,
    dead: bool,
}

impl Model for SearchState {
    ghost use Rattle.search_state.specs.State.{Searched, IsKept};

    ghost Value = { Searched };

    ghost view = { λ it. record { clauses = it.store; trail = it.trail; dead = it.dead } };

    ghost invariant = { λ it. IsKept it.store it.trail it.watches it.dead };
}

impl SearchState {
    /// The clauses of a store, over the variables 1 to `vars`, with nothing assigned.
    pub fn open(alloc: Global, vars: u32, store: Store) -> Result<SearchState, NoMemory>
        requires few { vars < 2 ^ 31 }
        requires over { AreOver vars store }
        ensures { IfOk result (λ it. it ≡ opened vars store) }
    {
        let trail = Trail::open(alloc, vars)?;
        let watches = attach_all(alloc, &store, &trail)?;
        Ok(SearchState {
            store,
            trail,
            watches,
            dead: false,
        })
    }

    /// Whether memory lacked while a clause was added.
    pub fn is_dead(&self) -> bool
        ensures { result ≡ self.now.dead }
    {
        self.dead
    }

    /// The trail is one of the clauses, and they are over its variables, as contracts know it then.
    /// It does nothing when it runs.
    pub fn vouch(&self)
        ensures is_trail { IsTrail self.now.trail }
        ensures of_store { IsTrailOf self.now.trail.steps self.now.clauses }
        ensures over { AreOver self.now.trail.vars self.now.clauses }
    {
        let _ = &self.dead;
    }

    /// The assignments. They are those of the clauses, also in a dead state.
    pub fn trail(&self) -> &Trail
        ensures trail { result.now ≡ self.now.trail }
        ensures is_trail { IsTrail self.now.trail }
        ensures of_store { IsTrailOf self.now.trail.steps self.now.clauses }
    {
        &self.trail
    }

    /// The clauses. Their variables are those of the trail, also in a dead state.
    pub fn store(&self) -> &Store
        ensures store { result.now ≡ self.now.clauses }
        ensures over { AreOver self.now.trail.vars self.now.clauses }
    {
        &self.store
    }

    /// Puts a clause last. The trail stays, also where the clause is false on it or forces a
    /// literal. After want of memory the state is dead.
    pub fn add(&mut self, alloc: Global, lits: &[Lit]) -> Result<ClauseRef, NoMemory>
        requires alive { self.old.dead ≡ false }
        requires clause { IsClause lits.now }
        requires over { All (IsOver self.old.trail.vars) lits.now }
        ensures at { IfOk result (λ at. at.0 ≡ length self.old.clauses) }
        ensures ok { OnOk result
            (self.new ≡ record self.old { clauses = self.old.clauses ++ lits.now ∷ [] }) }
        ensures err { OnErr result (self.new.dead ≡ true) }
        ensures trail { self.new.trail ≡ self.old.trail }
    {
        self.dead = true;
        let at = self.store.add(alloc, lits)?;
        self.watches.attach(alloc, &self.store, &self.trail, at)?;
        self.dead = false;
        Ok(at)
    }

    /// Assigns what the clauses force, until nothing is left to do or a clause is false, which is
    /// given. It takes no memory.
    pub fn propagate(&mut self) -> Option<ClauseRef>
        requires { self.old.dead ≡ false }
        ensures none { IfNone result (IsFixpoint self.old.clauses self.new.trail.steps) }
        ensures some { IfSome result (IsConflict self.old.clauses self.new.trail.steps) }
        ensures extends { Extends self.old.trail self.new.trail }
        ensures rest { self.new ≡ record self.old { trail = self.new.trail } }
    {
        let found = propagate(&self.store, &mut self.trail, &mut self.watches);
        self.trail.vouch();
        found
    }

    /// Makes an unset literal true, which opens a level.
    pub fn decide(&mut self, lit: Lit)
        requires alive { self.old.dead ≡ false }
        requires over { IsOver self.old.trail.vars lit }
        requires unset { value_of self.old.trail.steps lit ≡ Value.Unset }
        ensures { self.new ≡ decided self.old lit }
    {
        self.trail.decide(lit);
    }

    /// Makes an unset literal true because the clause `why` forces it.
    pub fn assign(&mut self, lit: Lit, why: ClauseRef)
        requires alive { self.old.dead ≡ false }
        requires over { IsOver self.old.trail.vars lit }
        requires unset { value_of self.old.trail.steps lit ≡ Value.Unset }
        requires forced { IsReasonFor self.old.clauses self.old.trail.steps lit why }
        ensures { self.new ≡ record self.old {
          trail = with_last self.old.trail lit (Some why) (present_level self.old.trail.steps);
        } }
    {
        self.trail.assign(&self.store, lit, why);
    }

    /// Undoes just the assignments of higher levels.
    pub fn back_to(&mut self, level: u32)
        requires alive { self.old.dead ≡ false }
        requires level { level ≤ present_level self.old.trail.steps }
        ensures steps { self.new ≡ gone_back self.old level }
        ensures level { present_level self.new.trail.steps ≡ level }
    {
        self.trail.back_to(level);
        self.watches.rewind(&self.trail);
    }
}
