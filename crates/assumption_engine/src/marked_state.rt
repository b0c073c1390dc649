// The state of a search together with marks at the variables that stand unnegated in some clause.
// Contracts see the state alone.
ghost use Rattle.std.specs.Prelude.{◌≡◌, ◌<◌, ◌≤◌, ◌^◌, ◌+◌, [], ◌∷◌, ◌++◌, All, None};
ghost use Rattle.std.specs.Prelude.{false, true, IfOk, OnOk, OnErr, IfSome, IfNone};
ghost use Rattle.clause_store.specs.Clause.{AreOver, IsClause, IsOver, variable};
ghost use Rattle.clause_store.specs.Standing.{IsConflict};
ghost use Rattle.clause_store.specs.Trail.{IsTrail, IsTrailOf, present_level, up_to, value_of};
ghost use Rattle.clause_store.specs.Trail.{with_last};
ghost use Rattle.propagator.specs.Fixpoint.{IsFixpoint};
ghost use Rattle.search_state.specs.State.{decided, gone_back, opened};
ghost use Rattle.assumption_engine.specs.Engine.{HasPropagated};
ghost use Rattle.assumption_engine.specs.Sided.{IsFree};

use crate::marks::{is_marked, mark, marks_of};
use clause_store::{ClauseRef, Lit, Store, Trail, Value};
use item_list::NoMemory;
use search_state::SearchState;
use std::alloc::Global;
use std::marker::Model;

/// A state of a search, with marks.
#[derive(Drop)]
pub struct MarkedState {
    state: SearchState,
    unnegated: Vec<bool>,
}

impl Model for MarkedState {
    ghost use Rattle.search_state.specs.State.{Searched};
    ghost use Rattle.assumption_engine.specs.Marks.{AreMarks};

    ghost Value = { Searched };

    ghost view = { λ it. it.state };

    ghost invariant = { λ it. AreMarks it.unnegated.items it.state };
}

impl MarkedState {
    /// The clauses of a store, over the variables 1 to `vars`, with nothing assigned.
    pub fn open(alloc: Global, vars: u32, store: Store) -> Result<MarkedState, NoMemory>
        requires few { vars < 2 ^ 31 }
        requires over { AreOver vars store }
        ensures { IfOk result (λ it. it ≡ opened vars store) }
    {
        let unnegated = marks_of(alloc, vars, &store)?;
        let state = SearchState::open(alloc, vars, store)?;
        Ok(MarkedState { state, unnegated })
    }

    /// The trail is one of the clauses, and they are over its variables, as contracts know it then.
    /// It does nothing when it runs.
    pub fn vouch(&self)
        ensures is_trail { IsTrail self.now.trail }
        ensures of_store { IsTrailOf self.now.trail.steps self.now.clauses }
        ensures over { AreOver self.now.trail.vars self.now.clauses }
    {
        self.state.vouch();
    }

    /// The assignments.
    pub fn trail(&self) -> &Trail
        ensures trail { result.now ≡ self.now.trail }
        ensures is_trail { IsTrail self.now.trail }
        ensures of_store { IsTrailOf self.now.trail.steps self.now.clauses }
    {
        self.state.trail()
    }

    /// The clauses.
    pub fn store(&self) -> &Store
        ensures store { result.now ≡ self.now.clauses }
        ensures over { AreOver self.now.trail.vars self.now.clauses }
    {
        self.state.store()
    }

    /// Puts a clause last. After want of memory the state is dead.
    pub fn add(&mut self, alloc: Global, lits: &[Lit]) -> Result<(), NoMemory>
        requires alive { self.old.dead ≡ false }
        requires clause { IsClause lits.now }
        requires over { All (IsOver self.old.trail.vars) lits.now }
        ensures ok { OnOk result
            (self.new ≡ record self.old { clauses = self.old.clauses ++ lits.now ∷ [] }) }
        ensures err { OnErr result (self.new.dead ≡ true) }
        ensures trail { self.new.trail ≡ self.old.trail }
    {
        self.state.add(alloc, lits)?;
        mark(&mut self.unnegated, lits);
        Ok(())
    }

    /// Assigns what the clauses force, until nothing is left to do or a clause is false, which is
    /// given.
    pub fn propagate(&mut self) -> Option<ClauseRef>
        requires alive { self.old.dead ≡ false }
        ensures none { IfNone result (IsFixpoint self.new.clauses self.new.trail.steps) }
        ensures some { IfSome result (IsConflict self.new.clauses self.new.trail.steps) }
        ensures propagated { HasPropagated self.old self.new }
    {
        let conflict = self.state.propagate();
        self.state.vouch();
        conflict
    }

    /// Makes an unset literal true, which opens a level.
    pub fn decide(&mut self, lit: Lit)
        requires alive { self.old.dead ≡ false }
        requires over { IsOver self.old.trail.vars lit }
        requires unset { value_of self.old.trail.steps lit ≡ Value.Unset }
        ensures { self.new ≡ decided self.old lit }
    {
        self.state.decide(lit);
    }

    /// Undoes just the assignments of higher levels.
    pub fn back_to(&mut self, level: u32)
        requires alive { self.old.dead ≡ false }
        requires level { level ≤ present_level self.old.trail.steps }
        ensures steps { self.new ≡ gone_back self.old level }
        ensures level { present_level self.new.trail.steps ≡ level }
    {
        self.state.back_to(level);
    }

    /// The literal, if it makes its variable false or stands in a clause, or else its opposite.
    pub fn freely(&self, lit: Lit) -> Lit
        requires { self.now.dead ≡ false }
        ensures variable { variable result ≡ variable lit }
        ensures free { IsFree self.now.clauses result }
    {
        if lit.is_negated() || is_marked(&self.unnegated, lit.var()) {
            lit
        } else {
            lit.negated()
        }
    }
}
