// Minimisation: a literal goes where propagation makes it false once the others are false. A false
// literal is covered where it is in the clause, is of level 0, or has a reason whose other literals
// are covered. A literal of the clause that has such a reason is superfluous. Reasons lead back to
// earlier assignments, so all superfluous ones may go at once.
ghost use Rattle.std.specs.Prelude.{◌≡◌, ◌<◌, All, IsTrue, OnOk, IfOk, length};
ghost use Rattle.clause_store.specs.Clause.{IsOver};
ghost use Rattle.clause_store.specs.Standing.{IsFalse};
ghost use Rattle.clause_store.specs.Trail.{IsTrail, IsTrailOf};
ghost use Rattle.conflict_learning.specs.Marks.{HasNoMark};
ghost use Rattle.conflict_learning.specs.Minimisation.{Begins, CoversAll, CoversOnly, IsCovered};
ghost use Rattle.conflict_learning.specs.Minimisation.{IsEnough};
ghost use Rattle.conflict_learning.specs.Minimisation.{IsExplained, IsReady, Judges, MarksCovered};
ghost use Rattle.conflict_learning.specs.Minimisation.{MarksUncovered};

use crate::Learned;
use crate::marks::unmark_lits;
use crate::walk::level_at;
use clause_store::{Clause, Lit, Store, Trail};
use item_list::{List, NoMemory};
use std::alloc::Global;
use std::mem;

/// Takes the superfluous literals out of the clause that was derived, which has no literal of the
/// present level yet. After want of memory `learned` may hold any clause.
pub fn minimise(
    alloc: Global,
    store: &Store,
    trail: &Trail,
    learned: &mut Learned,
) -> Result<(), NoMemory>
    requires of_store { IsTrailOf trail.now.steps store.now }
    requires is_false { All (IsFalse trail.now.steps) learned.old.clause }
    ensures enough { OnOk result (IsEnough store.now learned.old.clause learned.new.clause) }
    ensures visited { learned.new.visited ≡ learned.old.visited }
{
    let mut judge = begin(alloc, trail, learned)?;
    judge.drop_superfluous(alloc, store, trail, &mut learned.clause)?;
    let (covered, uncovered, judged) = judge.finish(trail);
    learned.marks.put_back(covered);
    learned.uncovered.put_back(uncovered);
    learned.judged = judged;
    Ok(())
}

/// A judge that takes the literals of the clause for covered.
fn begin(alloc: Global, trail: &Trail, learned: &mut Learned) -> Result<Judge, NoMemory>
    requires is_false { All (IsFalse trail.now.steps) learned.old.clause }
    ensures covers { IfOk result (CoversOnly trail.now learned.old.clause) }
    ensures clause { learned.new.clause ≡ learned.old.clause }
    ensures visited { learned.new.visited ≡ learned.old.visited }
{
    let covered = learned.marks.take(alloc, trail.vars())?;
    let uncovered = learned.uncovered.take(alloc, trail.vars())?;
    let judged = mem::replace(&mut learned.judged, List::open());
    let mut judge = Judge::begin(trail, covered, uncovered, judged);
    judge.cover_all(alloc, trail, learned.clause.as_slice())?;
    Ok(judge)
}

/// How many reasons may lie between a literal and those of the clause.
const DEPTH: u32 = 200;

/// What is known of false literals while a clause is minimised: marks on the variables of those
/// that are covered and of those that were found not to be, and all that are marked.
#[derive(Debug, Drop)]
pub struct Judge {
    covered: Vec<bool>,
    uncovered: Vec<bool>,
    judged: List<Lit>,
}

impl Judge {
    /// Nothing is known yet. What `judged` has is forgotten.
    fn begin(
        trail: &Trail,
        covered: Vec<bool>,
        uncovered: Vec<bool>,
        mut judged: List<Lit>,
    ) -> Judge
        requires covered_sized { trail.now.vars < length covered.items }
        requires uncovered_sized { trail.now.vars < length uncovered.items }
        requires none_covered { HasNoMark covered.items }
        requires none_uncovered { HasNoMark uncovered.items }
        ensures { Begins trail.now result }
    {
        trail.vouch();
        judged.clear();
        Judge {
            covered,
            uncovered,
            judged,
        }
    }

    /// Covers the literals of the clause.
    fn cover_all(&mut self, alloc: Global, trail: &Trail, lits: &[Lit]) -> Result<(), NoMemory>
        requires ready { IsReady trail.now self.old }
        requires over { All (IsOver trail.now.vars) lits.now }
        ensures { OnOk result (CoversAll trail.now self.old self.new lits.now) }
    {
        for lit in lits {
            self.mark_covered(alloc, trail, *lit)?;
        }
        Ok(())
    }

    /// Takes the superfluous literals out of the clause.
    fn drop_superfluous(
        &mut self,
        alloc: Global,
        store: &Store,
        trail: &Trail,
        clause: &mut Clause,
    ) -> Result<(), NoMemory>
        requires of_store { IsTrailOf trail.now.steps store.now }
        requires covers { CoversOnly trail.now clause.old self.old }
        requires is_false { All (IsFalse trail.now.steps) clause.old }
        ensures ready { OnOk result (IsReady trail.now self.new) }
        ensures enough { OnOk result (IsEnough store.now clause.old clause.new) }
    {
        let mut kept = 0;
        for at in 0..clause.len() {
            let lit = *clause.get(at);
            if !self.is_explained(alloc, store, trail, lit, DEPTH)? {
                clause.set(kept, lit);
                kept += 1;
            }
        }
        clause.truncate(kept);
        Ok(())
    }

    /// Whether a false literal has a reason whose other literals are covered.
    #[cycle(judging)]
    fn is_explained(
        &mut self,
        alloc: Global,
        store: &Store,
        trail: &Trail,
        lit: Lit,
        depth: u32,
    ) -> Result<bool, NoMemory>
        requires of_store { IsTrailOf trail.now.steps store.now }
        requires ready { IsReady trail.now self.old }
        requires is_false { IsFalse trail.now.steps lit }
        ensures judges { OnOk result (Judges store.now trail.now self.old self.new) }
        ensures explained { IfOk result (λ yes. IsTrue yes
            → IsExplained store.now trail.now.steps self.new.covered.items lit) }
    {
        match trail.reason(lit.var()) {
            None => Ok(false),
            Some(why) => {
                let forced = lit.negated();
                for other in store.lits(why) {
                    if *other != forced && !self.is_covered(alloc, store, trail, *other, depth)? {
                        return Ok(false);
                    }
                }
                Ok(true)
            }
        }
    }

    /// Whether a false literal is covered. Past the depth the answer is no.
    #[cycle(judging)]
    fn is_covered(
        &mut self,
        alloc: Global,
        store: &Store,
        trail: &Trail,
        lit: Lit,
        depth: u32,
    ) -> Result<bool, NoMemory>
        requires of_store { IsTrailOf trail.now.steps store.now }
        requires ready { IsReady trail.now self.old }
        requires is_false { IsFalse trail.now.steps lit }
        ensures judges { OnOk result (Judges store.now trail.now self.old self.new) }
        ensures covered { IfOk result (λ yes. IsTrue yes
            → IsCovered trail.now.steps self.new.covered.items lit) }
    {
        if self.has_covered(trail, lit) {
            return Ok(true);
        }
        if depth == 0 || self.uncovered[lit.var().0 as usize] {
            return Ok(false);
        }
        if self.is_explained(alloc, store, trail, lit, depth - 1)? {
            self.mark_covered(alloc, trail, lit)?;
            return Ok(true);
        }
        self.mark_uncovered(alloc, trail, lit)?;
        Ok(false)
    }

    /// Whether a literal is known to be covered.
    fn has_covered(&self, trail: &Trail, lit: Lit) -> bool
        requires ready { IsReady trail.now self.now }
        requires over { IsOver trail.now.vars lit }
        ensures { IsTrue result → IsCovered trail.now.steps self.now.covered.items lit }
    {
        self.covered[lit.var().0 as usize] || level_at(trail, lit) == 0
    }

    /// Marks a literal as covered.
    fn mark_covered(&mut self, alloc: Global, trail: &Trail, lit: Lit) -> Result<(), NoMemory>
        requires ready { IsReady trail.now self.old }
        requires over { IsOver trail.now.vars lit }
        ensures { OnOk result (MarksCovered trail.now self.old self.new lit) }
    {
        self.judged.push(alloc, lit)?;
        self.covered[lit.var().0 as usize] = true;
        Ok(())
    }

    /// Marks a literal as one that isn't covered.
    fn mark_uncovered(&mut self, alloc: Global, trail: &Trail, lit: Lit) -> Result<(), NoMemory>
        requires ready { IsReady trail.now self.old }
        requires over { IsOver trail.now.vars lit }
        ensures { OnOk result (MarksUncovered trail.now self.old self.new lit) }
    {
        self.judged.push(alloc, lit)?;
        self.uncovered[lit.var().0 as usize] = true;
        Ok(())
    }

    /// The tables with no mark set, and the room for what is judged.
    fn finish(mut self, trail: &Trail) -> (Vec<bool>, Vec<bool>, List<Lit>)
        requires ready { IsReady trail.now self }
        ensures covered { HasNoMark result.0.items }
        ensures uncovered { HasNoMark result.1.items }
    {
        unmark_lits(self.judged.as_slice(), &mut self.covered);
        unmark_lits(self.judged.as_slice(), &mut self.uncovered);
        (self.covered, self.uncovered, self.judged)
    }
}
