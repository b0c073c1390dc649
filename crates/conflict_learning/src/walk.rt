// The walk back over a trail. The clause so far has the noted literals of lower levels and, for
// each open assignment, the literal that it made false. An assignment is open where its variable is
// marked and it is of the present level and not passed yet. The table of marks and the clause are
// lent by who walks, and given back at the end.
ghost use Rattle.std.specs.Prelude.{◌≡◌, ◌≢◌, ◌<◌, ◌^◌, ◌↔◌, ℕ, All, List, IsTrue};
ghost use Rattle.std.specs.Prelude.{take, length, OnOk, IfOk};
ghost use Rattle.clause_store.specs.Clause.{variable, IsOver};
ghost use Rattle.clause_store.specs.Standing.{IsFalse};
ghost use Rattle.clause_store.specs.Trail.{IsTrailOf};
ghost use Rattle.conflict_learning.specs.Analysis.{IsVariable, level_at};
ghost use Rattle.conflict_learning.specs.Marks.{HasNoMark, is_open};
ghost use Rattle.conflict_learning.specs.Walk.{Begins, IsUnderWay, IsNotable, IsNoted, Notes};
ghost use Rattle.conflict_learning.specs.Walk.{NotesAll, GoesBack, ResolvesTo};

use crate::marks::{list_lits, list_steps, unmark_lits, unmark_steps};
use clause_store::{Clause, Lit, Step, Store, Trail, Value, Var};
use item_list::{List, NoMemory};
use std::alloc::Global;

/// A clause on its way to be learned.
#[derive(Debug, Drop)]
pub struct Walk {
    marks: Vec<bool>,
    clause: Clause,
    level: u32,
    unresolved: usize,
    at: usize,
}

impl Walk {
    /// Before the whole trail, with nothing noted. What the clause has is forgotten.
    pub fn begin(trail: &Trail, marks: Vec<bool>, mut clause: Clause) -> Walk
        requires few { trail.now.vars < 2 ^ 31 }
        requires sized { trail.now.vars < length marks.items }
        requires unmarked { HasNoMark marks.items }
        ensures { Begins trail.now result }
    {
        clause.clear();
        Walk {
            marks,
            clause,
            level: trail.level(),
            unresolved: 0,
            at: trail.steps().len(),
        }
    }

    /// Notes the literals of a clause that are false.
    pub fn note_all(&mut self, alloc: Global, trail: &Trail, lits: &[Lit]) -> Result<(), NoMemory>
        requires under_way { IsUnderWay trail.now self.old }
        requires notable { All (IsNotable trail.now self.old.at) lits.now }
        ensures { OnOk result (NotesAll trail.now self.old self.new lits.now) }
    {
        for lit in lits {
            if trail.value(*lit) == Value::No {
                self.note(alloc, trail, *lit)?;
            }
        }
        Ok(())
    }

    /// Notes a false literal, unless it was noted before or is of level 0.
    fn note(&mut self, alloc: Global, trail: &Trail, lit: Lit) -> Result<(), NoMemory>
        requires under_way { IsUnderWay trail.now self.old }
        requires is_false { IsFalse (take self.old.at trail.now.steps) lit }
        ensures { OnOk result (Notes trail.now self.old self.new lit) }
    {
        if self.has_noted(trail, lit) {
            return Ok(());
        }
        let place = lit.var().0 as usize;
        if level_at(trail, lit) == self.level {
            self.marks[place] = true;
            self.unresolved += 1;
            return Ok(());
        }
        self.clause.push(alloc, lit)?;
        self.marks[place] = true;
        Ok(())
    }

    /// Whether a literal was noted before or is of level 0.
    fn has_noted(&self, trail: &Trail, lit: Lit) -> bool
        requires over { IsOver trail.now.vars lit }
        requires sized { trail.now.vars < length self.now.marks.items }
        ensures { IsTrue result ↔ IsNoted trail.now.steps self.now lit }
    {
        level_at(trail, lit) == 0 || self.marks[lit.var().0 as usize]
    }

    /// Passes the last open assignment and those behind it.
    fn go_back(&mut self, trail: &Trail) -> Step
        requires under_way { IsUnderWay trail.now self.old }
        requires some { 0 < self.old.unresolved }
        ensures { GoesBack trail.now self.old self.new result }
    {
        let steps = trail.steps();
        while !is_open(&self.marks, self.level, &steps[self.at - 1]) {
            self.at -= 1;
        }
        self.at -= 1;
        self.unresolved -= 1;
        steps[self.at]
    }

    /// Replaces open literals by those of their reasons, from the last one on, until one is left.
    /// That one is the answer.
    pub fn resolve(&mut self, alloc: Global, store: &Store, trail: &Trail) -> Result<Lit, NoMemory>
        requires of_store { IsTrailOf trail.now.steps store.now }
        requires under_way { IsUnderWay trail.now self.old }
        requires some { 0 < self.old.unresolved }
        ensures { IfOk result (ResolvesTo store.now trail.now self.old self.new) }
    {
        let mut step = self.go_back(trail);
        while self.unresolved > 0 {
            let why = step.reason.unwrap();
            self.note_all(alloc, trail, store.lits(why))?;
            step = self.go_back(trail);
        }
        Ok(step.lit.negated())
    }

    /// Lists the variables of the passed assignments that were open, and those of the clause.
    pub fn list_visited(
        &self,
        alloc: Global,
        trail: &Trail,
        visited: &mut List<Var>,
    ) -> Result<(), NoMemory>
        requires under_way { IsUnderWay trail.now self.now }
        ensures { OnOk result (All (IsVariable trail.now.vars) visited.new) }
    {
        visited.clear();
        list_steps(alloc, &trail.steps()[self.at..], &self.marks, visited)?;
        list_lits(alloc, self.clause.as_slice(), visited)?;
        Ok(())
    }

    /// The noted literals of lower levels, and the table with no mark set. Nothing may be open any
    /// more.
    pub fn finish(mut self, trail: &Trail) -> (Clause, Vec<bool>)
        requires under_way { IsUnderWay trail.now self }
        requires none { self.unresolved ≡ 0 }
        ensures clause { result.0 ≡ self.clause }
        ensures unmarked { HasNoMark result.1.items }
    {
        self.clear_marks(trail);
        (self.clause, self.marks)
    }

    /// Takes all marks away: those that are left are of passed assignments or of the clause.
    fn clear_marks(&mut self, trail: &Trail)
        requires under_way { IsUnderWay trail.now self.old }
        requires none { self.old.unresolved ≡ 0 }
        ensures clause { self.new.clause ≡ self.old.clause }
        ensures unmarked { HasNoMark self.new.marks.items }
    {
        unmark_steps(&trail.steps()[self.at..], &mut self.marks);
        unmark_lits(self.clause.as_slice(), &mut self.marks);
    }
}

/// The level at which the variable of a literal was assigned, or 0.
pub fn level_at(trail: &Trail, lit: Lit) -> u32
    requires { IsOver trail.now.vars lit }
    ensures { result ≡ level_at trail.now.steps lit }
{
    trail.level_of(lit.var()).unwrap_or(0)
}

/// Whether an assignment is marked and of a level.
fn is_open(marks: &[bool], level: u32, step: &Step) -> bool
    requires { variable step.now.lit < length marks.now }
    ensures { result ≡ is_open marks.now level step.now }
{
    marks[step.lit.var().0 as usize] && step.level == level
}
