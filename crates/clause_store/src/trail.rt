// The assignments in order, and beside them two arrays that answer at once: the place of each
// variable's assignment and the value of each literal. Each variable is assigned at most once, so
// the room that `open` reserves for one assignment a variable always suffices.
ghost use Rattle.std.specs.Prelude.{◌≡◌, ◌<◌, ◌≤◌, ◌^◌, [], ◌∷◌, ◌++◌, ◌+◌, length, Some, None};
ghost use Rattle.std.specs.Prelude.{IfOk, IsTrue, ◌↔◌};
ghost use Rattle.clause_store.specs.Clause.{IsOver};
ghost use Rattle.clause_store.specs.Trail.{IsTrail, IsTrailOf, IsReasonFor, StaysTrail, step_of};
ghost use Rattle.clause_store.specs.Trail.{place_of, value_of, reason_of, level_of, present_level};
ghost use Rattle.clause_store.specs.Trail.{next_level, up_to, with_last};
ghost use Rattle.clause_store.specs.Standing.{GoesBack};
ghost use Rattle.clause_store.specs.Arrays.{IsWithoutLast};

use crate::{ClauseRef, Lit, Step, Store, Value, Var};
use item_list::NoMemory;
use std::alloc::Global;
use std::marker::Model;

/// Assignments of variables in order, each a decision or forced by a clause.
#[derive(Debug, Drop)]
pub struct Trail {
    vars: u32,
    steps: Vec<Step>,
    places: Vec<Option<u32>>,
    values: Vec<Value>,
}

impl Model for Trail {
    ghost use Rattle.std.specs.Prelude.{vec_len, vec_capacity};
    ghost use Rattle.clause_store.specs.Trail.{Assigned};
    ghost use Rattle.clause_store.specs.Arrays.{IsKept};

    ghost Value = { Assigned };

    ghost view = { λ trail. record { vars = trail.vars; steps = trail.steps.items } };

    ghost invariant = { λ trail. IsKept trail.vars trail.steps.items (vec_len trail.steps)
        (vec_capacity trail.steps) trail.places.items trail.values.items };
}

impl Trail {
    /// The empty trail over the variables 1 to `vars`. All other calls take no memory.
    pub fn open(alloc: Global, vars: u32) -> Result<Trail, NoMemory>
        requires { vars < 2 ^ 31 }
        ensures empty { IfOk result (λ trail. trail ≡ record { vars = vars; steps = [] }) }
        ensures trail { IfOk result IsTrail }
    {
        let count = vars as usize;
        let steps = Vec::with_capacity(alloc, count)?;
        let places = vec![in alloc; None; count + 1]?;
        let values = vec![in alloc; Value::Unset; 2 * count + 2]?;
        Ok(Trail {
            vars,
            steps,
            places,
            values,
        })
    }

    /// The trail is one, as contracts know it then. It does nothing when it runs.
    pub fn vouch(&self)
        ensures { IsTrail self.now }
    {
        let _ = &self.vars;
    }

    /// The greatest variable.
    pub fn vars(&self) -> u32
        ensures vars { result ≡ self.now.vars }
        ensures few { result < 2 ^ 31 }
    {
        self.vars
    }

    /// Whether the variable of a literal is one of the trail's.
    pub fn has(&self, lit: Lit) -> bool
        ensures { IsTrue result ↔ IsOver self.now.vars lit }
    {
        let var = lit.var().0;
        1 <= var && var <= self.vars
    }

    /// The assignments in order.
    pub fn steps(&self) -> &[Step]
        ensures steps { result.now ≡ self.now.steps }
        ensures trail { IsTrail self.now }
        ensures few { length self.now.steps ≤ self.now.vars }
    {
        self.steps.as_slice()
    }

    /// Whether a literal is true, false or unset.
    pub fn value(&self, lit: Lit) -> Value
        requires { IsOver self.now.vars lit }
        ensures { result ≡ value_of self.now.steps lit }
    {
        self.values[lit.0 as usize]
    }

    /// The clause that forced a variable. None is a decision or an unset variable.
    pub fn reason(&self, var: Var) -> Option<ClauseRef>
        requires { var.0 ≤ self.now.vars }
        ensures { result ≡ reason_of self.now.steps var.0 }
    {
        match self.step_of(var) {
            Some(step) => step.reason,
            None => None,
        }
    }

    /// The level at which a variable was assigned. None is an unset variable.
    pub fn level_of(&self, var: Var) -> Option<u32>
        requires { var.0 ≤ self.now.vars }
        ensures { result ≡ level_of self.now.steps var.0 }
    {
        match self.step_of(var) {
            Some(step) => Some(step.level),
            None => None,
        }
    }

    /// The place of a variable's assignment among the steps. None is an unset variable.
    pub fn place_of(&self, var: Var) -> Option<usize>
        requires { var.0 ≤ self.now.vars }
        ensures { result ≡ place_of self.now.steps var.0 }
    {
        match self.places[var.0 as usize] {
            Some(place) => Some(place as usize),
            None => None,
        }
    }

    /// The assignment of a variable.
    fn step_of(&self, var: Var) -> Option<Step>
        requires { var.0 ≤ self.now.vars }
        ensures { result ≡ step_of self.now.steps var.0 }
    {
        match self.place_of(var) {
            Some(place) => Some(self.steps[place]),
            None => None,
        }
    }

    /// The present level: the number of decisions.
    pub fn level(&self) -> u32
        ensures level { result ≡ present_level self.now.steps }
        ensures few { result ≤ self.now.vars }
        ensures small { result < 2 ^ 31 }
    {
        match self.steps.as_slice() {
            [] => 0,
            [.., last] => last.level,
        }
    }

    /// Makes an unset literal true, which opens a level.
    pub fn decide(&mut self, lit: Lit)
        requires over { IsOver self.old.vars lit }
        requires unset { value_of self.old.steps lit ≡ Value.Unset }
        ensures steps { self.new
            ≡ with_last self.old lit None (present_level self.old.steps + 1) }
        ensures trail { IsTrail self.new }
        ensures stays { StaysTrail self.old.steps self.new.steps }
    {
        let level = self.level() + 1;
        self.put(Step {
            lit,
            reason: None,
            level,
        });
        self.vouch();
    }

    /// Makes an unset literal true because the clause `why` of the store forces it.
    pub fn assign(&mut self, store: &Store, lit: Lit, why: ClauseRef)
        requires over { IsOver self.old.vars lit }
        requires unset { value_of self.old.steps lit ≡ Value.Unset }
        requires forced { IsReasonFor store.now self.old.steps lit why }
        requires of_store { IsTrailOf self.old.steps store.now }
        ensures steps { self.new
            ≡ with_last self.old lit (Some why) (present_level self.old.steps) }
        ensures trail { IsTrail self.new }
        ensures of_store { IsTrailOf self.new.steps store.now }
    {
        let level = self.level();
        self.put(Step {
            lit,
            reason: Some(why),
            level,
        });
        self.vouch();
    }

    /// Undoes just the assignments of higher levels.
    pub fn back_to(&mut self, level: u32)
        requires { level ≤ present_level self.old.steps }
        ensures steps { self.new ≡ record self.old { steps = up_to level self.old.steps } }
        ensures level { present_level self.new.steps ≡ level }
        ensures trail { IsTrail self.new }
        ensures stays { StaysTrail self.old.steps self.new.steps }
        ensures back { GoesBack self.old self.new }
    {
        self.vouch();
        while self.level() > level {
            self.undo();
        }
        self.vouch();
    }

    /// Puts an assignment last.
    fn put(&mut self, step: Step)
        requires over { IsOver self.old.vars step.lit }
        requires unset { value_of self.old.steps step.lit ≡ Value.Unset }
        requires level { step.level ≡ next_level (present_level self.old.steps) step.reason }
        ensures { self.new ≡ record self.old { steps = self.old.steps ++ step ∷ [] } }
    {
        let place = self.steps.len() as u32;
        self.steps.push_reserved(step);
        self.places[step.lit.var().0 as usize] = Some(place);
        self.values[step.lit.0 as usize] = Value::Yes;
        self.values[step.lit.negated().0 as usize] = Value::No;
    }

    /// Takes the last assignment off.
    fn undo(&mut self)
        requires { 1 ≤ length self.old.steps }
        ensures vars { self.new.vars ≡ self.old.vars }
        ensures steps { IsWithoutLast self.old.steps self.new.steps }
    {
        if let Some(step) = self.steps.pop() {
            self.places[step.lit.var().0 as usize] = None;
            self.values[step.lit.0 as usize] = Value::Unset;
            self.values[step.lit.negated().0 as usize] = Value::Unset;
        }
    }
}
