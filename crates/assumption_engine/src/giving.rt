// What an engine does with a clause that the theory gives.
ghost use Rattle.std.specs.Prelude.{◌≡◌, ◌≤◌, List, All, IfOk, OnOk};
ghost use Rattle.clause_store.specs.declared.literal.Lit.{Lit};
ghost use Rattle.clause_store.specs.Clause.{IsOver};
ghost use Rattle.clause_store.specs.Counted.{Counted};
ghost use Rattle.clause_store.specs.Trail.{present_level};
ghost use Rattle.propagator.specs.Fixpoint.{IsFixpoint};
ghost use Rattle.assumption_engine.specs.Theory.{IsGiven, MeansTheSame};
ghost use Rattle.assumption_engine.specs.Engine.{GoesOn, IsRight};
ghost use Rattle.assumption_engine.specs.Down.{KeepsPlaces};
ghost use Rattle.assumption_engine.specs.Answer.{HasGiven};

use crate::answer::{Answer, Turn};
use crate::engine::Engine;
use crate::theory::Theory;
use clause_store::{Clause, Lit, Trail};
use item_list::NoMemory;
use std::alloc::Global;

impl<T: Theory> Engine<T> {
    /// Puts the clause that the theory gave last, and goes back to the level where it acts. No
    /// clause is counted. The answer is the empty core where the clause is empty.
    pub(crate) fn take_given(&mut self, alloc: Global) -> Result<Turn, NoMemory>
        requires right { IsRight (T.meaning self.old.theory) (T.followed self.old.theory)
            self.old.state self.old.defined }
        requires given { IsGiven (T.meaning self.old.theory) self.old.state.trail self.old.given }
        requires fixpoint { IsFixpoint self.old.state.clauses self.old.state.trail.steps }
        ensures right { OnOk result (IsRight (T.meaning self.new.theory)
            (T.followed self.new.theory) self.new.state self.new.defined) }
        ensures same { MeansTheSame (T.meaning self.old.theory) (T.meaning self.new.theory) }
        ensures defined { self.new.defined ≡ self.old.defined }
        ensures on { OnOk result ((assumed : List Lit) (counted : Counted) → GoesOn
            (T.meaning self.old.theory) assumed self.old.state self.new.state counted counted) }
        ensures turn { IfOk result (HasGiven (T.meaning self.old.theory) self.old.defined
            self.old.state self.new.state) }
        ensures keeps { OnOk result
            (KeepsPlaces self.old.state.trail.steps self.new.state.trail.steps) }
        ensures places { self.new.steering.places ≡ self.old.steering.places }
        ensures dead { self.new.dead ≡ self.old.dead }
    {
        self.state.vouch();
        if self.given.len() == 0 {
            return Ok(Turn::Ended(Answer::Core(Clause::open())));
        }
        self.state.add(alloc, self.given.as_slice())?;
        let level = acting_level(self.state.trail(), self.given.as_slice());
        self.go_back(level);
        Ok(Turn::Going)
    }
}

/// The level where a clause acts: where it forces the literal that is unset, or the one of the
/// greatest level if that is alone, and else where it is a conflict.
fn acting_level(trail: &Trail, lits: &[Lit]) -> u32
    requires { All (IsOver trail.now.vars) lits.now }
    ensures { result ≤ present_level trail.now.steps }
{
    let mut greatest = 0;
    let mut next = 0;
    let mut all_set = true;
    for lit in lits {
        match trail.level_of(lit.var()) {
            None => all_set = false,
            Some(level) => {
                if level >= greatest {
                    next = greatest;
                    greatest = level;
                } else if level > next {
                    next = level;
                }
            }
        }
    }
    least(if all_set { next } else { greatest }, trail.level())
}

/// The lesser of two numbers.
fn least(one: u32, two: u32) -> u32
    ensures { result ≤ two }
{
    if one < two { one } else { two }
}
