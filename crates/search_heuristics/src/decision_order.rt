// The order of decisions. Variables that were bumped come by their activity, the others by their
// number. What was passed among these is a hint alone: no answer rests on it.
ghost use Rattle.std.specs.Prelude.{◌≡◌, ◌<◌, ◌≤◌, ◌^◌, ◌↔◌, ℕ, IfNone, IfSome, IsSome, IsTrue};
ghost use Rattle.clause_store.specs.Clause.{IsOver, variable};
ghost use Rattle.clause_store.specs.Trail.{IsTotal, step_of, value_of};

use crate::activity_heap::ActivityHeap;
use crate::sought::Sought;
use clause_store::{Lit, Step, Trail, Value, Var};
use item_list::NoMemory;
use std::alloc::Global;

/// What is decided next, and how. Its calls ignore variables that it wasn't opened for.
#[derive(Debug, Drop)]
pub struct DecisionOrder {
    bumped: ActivityHeap,
    phases: Vec<bool>,
    /// The values of the last answer, where something is sought.
    answer: Vec<bool>,
    sought: Sought,
    passed: u32,
}

impl DecisionOrder {
    /// The order of the variables 1 to `vars`: no variable was bumped, and each is decided false.
    /// All other calls but `copy` and `seek` take no memory.
    pub fn open(alloc: Global, vars: u32) -> Result<DecisionOrder, NoMemory>
        requires { vars < 2 ^ 31 }
    {
        let bumped = ActivityHeap::open(alloc, vars)?;
        let phases = vec![in alloc; false; vars as usize + 1]?;
        Ok(DecisionOrder {
            bumped,
            phases,
            answer: Vec::new(alloc),
            sought: Sought::open(alloc),
            passed: 0,
        })
    }

    /// The same order again, with the same phases.
    pub fn copy(&self, alloc: Global) -> Result<DecisionOrder, NoMemory> {
        let bumped = self.bumped.copy(alloc)?;
        let phases = Vec::from_slice(alloc, self.phases.as_slice())?;
        let answer = Vec::from_slice(alloc, self.answer.as_slice())?;
        let sought = self.sought.copy(alloc)?;
        Ok(DecisionOrder {
            bumped,
            phases,
            answer,
            sought,
            passed: self.passed,
        })
    }

    /// The literal to decide: the next one that is sought. Else its variable is the unset one of
    /// the greatest activity, or the first unset one where only variables that were never bumped
    /// are unset, and its sign is the phase of the variable. None exactly where all variables of
    /// the trail are assigned.
    pub fn next(&mut self, trail: &Trail) -> Option<Lit>
        ensures none { IfNone result (IsTotal trail.now) }
        ensures over { IfSome result (IsOver trail.now.vars) }
        ensures unset { IfSome result (λ lit. value_of trail.now.steps lit ≡ Value.Unset) }
    {
        if is_total(trail) {
            return None;
        }
        if let Some(lit) = self.sought.next(trail) {
            return Some(lit);
        }
        match self.next_variable(trail) {
            Some(lit) => Some(self.with_phase(lit)),
            None => None,
        }
    }

    /// Seeks literals from the next question on: each is decided first, as it is, until the
    /// question has had ten conflicts, or for good once an answer made it true. After want of
    /// memory the order is as before.
    pub fn seek(&mut self, alloc: Global, lits: &[Lit]) -> Result<(), NoMemory> {
        let answer = Vec::from_slice(alloc, self.phases.as_slice())?;
        self.sought.seek(alloc, self.phases.len(), lits)?;
        self.answer = answer;
        Ok(())
    }

    /// A question begins on a trail of level 0, or goes on after so many conflicts.
    pub fn begin(&mut self, trail: &Trail, conflicts: u32) {
        self.sought.begin(trail, conflicts);
    }

    /// A conflict came. All activities lose a twentieth of their weight. Where sought literals
    /// wait from now on, variables are decided as they were in the last answer.
    pub fn conflict(&mut self) {
        self.bumped.decay();
        if self.sought.gives_up() {
            copy_over(self.answer.as_slice(), self.phases.as_mut_slice());
        }
    }

    /// The total trail is an answer. The sought literals that it makes true are settled.
    pub fn answered(&mut self, trail: &Trail) {
        for step in trail.steps() {
            set_value(&mut self.answer, step.lit);
        }
        self.sought.settle(trail);
    }

    /// Adds to the activity of a variable that analysis visits. It is in the order by that once it
    /// is assigned and unset again.
    pub fn bump(&mut self, var: Var) {
        self.bumped.bump(var);
    }

    /// Lets the variables of these literals come first, as these literals. Their lead over bumped
    /// variables fades within some fourteen conflicts.
    pub fn prefer(&mut self, lits: &[Lit]) {
        for lit in lits {
            self.set_phase(*lit);
            self.bumped.lift(lit.var());
        }
    }

    /// Lets a variable be decided as this literal, until another value is saved.
    pub fn set_phase(&mut self, lit: Lit) {
        set_value(&mut self.phases, lit);
    }

    /// Takes the variables of the assignments above a level back into the order, with their values
    /// as phases. It is called before the trail goes back to that level.
    pub fn take_back(&mut self, trail: &Trail, level: u32) {
        for step in trail.steps().iter().rev() {
            if step.level <= level {
                break;
            }
            self.take_one_back(step.lit);
        }
    }

    /// Takes the variable of an assignment back into the order.
    fn take_one_back(&mut self, lit: Lit) {
        self.set_phase(lit);
        let var = lit.var();
        self.sought.put_back(var);
        if !self.bumped.put_back(var) {
            self.passed = self.passed.min(var.0.saturating_sub(1));
        }
    }

    /// The literal that makes the variable to decide true.
    fn next_variable(&mut self, trail: &Trail) -> Option<Lit>
        ensures none { IfNone result (IsTotal trail.now) }
        ensures over { IfSome result (IsOver trail.now.vars) }
        ensures unset { IfSome result (λ lit. value_of trail.now.steps lit ≡ Value.Unset) }
    {
        match self.bumped.top_unset(trail) {
            Some(lit) => Some(lit),
            None => self.next_by_number(trail),
        }
    }

    /// The first unset variable after those that were passed, or else the first one at all.
    fn next_by_number(&mut self, trail: &Trail) -> Option<Lit>
        ensures none { IfNone result (IsTotal trail.now) }
        ensures over { IfSome result (IsOver trail.now.vars) }
        ensures unset { IfSome result (λ lit. value_of trail.now.steps lit ≡ Value.Unset) }
    {
        match unset_after(trail, self.passed) {
            Some(lit) => {
                self.passed = lit.var().0.saturating_sub(1);
                Some(lit)
            }
            None => unset_after(trail, 0),
        }
    }

    /// The literal of the same variable that gives it its phase.
    fn with_phase(&self, positive: Lit) -> Lit
        ensures { variable result ≡ variable positive }
    {
        if self.is_true_first(positive.var()) {
            positive
        } else {
            positive.negated()
        }
    }

    /// Whether the phase of a variable is true.
    fn is_true_first(&self, var: Var) -> bool {
        self.phases.get(var.0 as usize).copied().unwrap_or(false)
    }
}

/// Keeps the value that a literal gives its variable, if that has a place.
fn set_value(values: &mut Vec<bool>, lit: Lit) {
    let at = lit.var().0 as usize;
    if at < values.len() {
        values[at] = !lit.is_negated();
    }
}

/// Copies values over others, as far as both go.
fn copy_over(from: &[bool], to: &mut [bool]) {
    for at in 0..from.len().min(to.len()) {
        to[at] = from[at];
    }
}

/// Whether all variables of the trail are assigned. It compares two counts.
pub fn is_total(trail: &Trail) -> bool
    ensures { IsTrue result ↔ IsTotal trail.now }
{
    trail.steps().len() == trail.vars() as usize
}

/// The first unset variable after the variable `passed`.
fn unset_after(trail: &Trail, passed: u32) -> Option<Lit>
    ensures none { IfNone result
        ((var : ℕ) → passed < var → var ≤ trail.now.vars → IsSome (step_of trail.now.steps var)) }
    ensures over { IfSome result (IsOver trail.now.vars) }
    ensures unset { IfSome result (λ lit. value_of trail.now.steps lit ≡ Value.Unset) }
{
    for before in passed..trail.vars() {
        let lit = Var(before + 1).positive();
        if trail.value(lit) == Value::Unset {
            return Some(lit);
        }
    }
    None
}
