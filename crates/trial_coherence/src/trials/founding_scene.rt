// A normal form with its founding and a trail.
ghost use Rattle.std.specs.Prelude.{IfOk};
ghost use Rattle.normal_program.specs.Limit.{IsNormal};
ghost use Rattle.trial_coherence.specs.Ready.{IsOpen};

use crate::trials::plain_founding::{denies_one, left_over, may_force};
use clause_store::{Clause, Lit, Trail, Value};
use item_list::NoMemory;
use normal_program::Normal;
use std::alloc::Global;
use unfounded_sets::{Found, Unfounded};

/// A normal form, its founding, a trail over its atoms and bodies, and the last clause.
#[derive(Drop)]
pub struct FoundingScene {
    pub normal: Normal,
    pub trail: Trail,
    pub founding: Unfounded,
    pub clause: Clause,
}

impl FoundingScene {
    /// The scene of a normal form, with nothing assigned.
    pub fn open(alloc: Global, normal: Normal) -> Result<FoundingScene, NoMemory>
        requires { IsNormal normal }
        ensures { IfOk result (λ it. IsOpen it.normal it.trail it.founding) }
    {
        let trail = Trail::open(alloc, normal.greatest_body_var())?;
        let founding = Unfounded::open(alloc, &normal)?;
        Ok(FoundingScene {
            normal,
            trail,
            founding,
            clause: Clause::open(),
        })
    }

    /// Makes a literal true where it can be.
    pub fn assume(&mut self, lit: Lit)
        requires { IsOpen self.old.normal self.old.trail self.old.founding }
        ensures { IsOpen self.new.normal self.new.trail self.new.founding }
    {
        if self.trail.has(lit) {
            if let Value::Unset = self.trail.value(lit) {
                self.trail.decide(lit);
            }
        }
    }

    /// Goes back to a level, if the trail is above it.
    pub fn go_back(&mut self, level: u32)
        requires { IsOpen self.old.normal self.old.trail self.old.founding }
        ensures { IsOpen self.new.normal self.new.trail self.new.founding }
    {
        if level < self.trail.level() {
            self.trail.back_to(level);
            self.founding.undo(&self.trail);
        }
    }

    /// Whether founding from nothing finds the same.
    pub fn finds_the_same_anew(&mut self, alloc: Global) -> Result<bool, NoMemory>
        requires { IsOpen self.old.normal self.old.trail self.old.founding }
        ensures { IsOpen self.new.normal self.new.trail self.new.founding }
    {
        let mut fresh = Unfounded::open(alloc, &self.normal)?;
        let anew = fresh.find(alloc, &self.normal, &self.trail, &mut self.clause)?;
        let kept = self
            .founding
            .find(alloc, &self.normal, &self.trail, &mut self.clause)?;
        Ok(anew == kept)
    }

    /// Whether what is found is what the definition says, and a clause can force something and
    /// denies an atom that is left over.
    pub fn finds_what_is_left_over(&mut self, alloc: Global) -> Result<bool, NoMemory>
        requires { IsOpen self.old.normal self.old.trail self.old.founding }
        ensures { IsOpen self.new.normal self.new.trail self.new.founding }
    {
        let left = left_over(&self.normal, &self.trail);
        let found = self
            .founding
            .find(alloc, &self.normal, &self.trail, &mut self.clause)?;
        Ok(match found {
            Found::Nothing => left == 0,
            Found::Loop => self.is_fit(left),
        })
    }

    /// Whether the clause can force something and denies one of these atoms.
    fn is_fit(&self, left: u32) -> bool {
        let clause = self.clause.as_slice();
        may_force(&self.trail, clause) && denies_one(left, clause)
    }
}
