// The search: one turn after another until one ends with an answer.
ghost use Rattle.std.specs.Prelude.{◌≡◌, ◌≢◌, ◌≤◌, ◌<◌, ◌+◌, All, IfOk, OnOk, false, true, length};
ghost use Rattle.clause_store.specs.Clause.{IsOver};
ghost use Rattle.search_heuristics.specs.Places.{AreTrueBefore};
ghost use Rattle.assumption_engine.specs.Theory.{MeansTheSame};
ghost use Rattle.assumption_engine.specs.Engine.{GoesOn, HasCounted, IsRight};
ghost use Rattle.assumption_engine.specs.Sided.{AreTrueAsAssumed};
ghost use Rattle.assumption_engine.specs.Answer.{HasEnded, HasTurned, IsStop, MayTurn};

use crate::answer::{Answer, Turn};
use crate::engine::Engine;
use crate::theory::Theory;
use clause_store::{Budget, Lit};
use item_list::NoMemory;
use std::alloc::Global;

impl<T: Theory> Engine<T> {
    /// Whether some model makes all literals of `assume` true. At most `slice` clauses are counted.
    /// After want of memory the engine answers that alone.
    pub fn ask(&mut self, alloc: Global, assume: &[Lit], budget: &mut Budget, slice: u32) -> Answer
        requires right { self.old.dead ≡ false → IsRight (T.meaning self.old.theory)
            (T.followed self.old.theory) self.old.state self.old.defined }
        requires over { self.old.dead ≡ false
            → All (IsOver self.old.state.trail.vars) assume.now }
        requires some { 1 ≤ slice }
        requires unused { length budget.old.units < budget.old.limit }
        ensures right { self.new.dead ≡ false → IsRight (T.meaning self.new.theory)
            (T.followed self.new.theory) self.new.state self.new.defined }
        ensures same { MeansTheSame (T.meaning self.old.theory) (T.meaning self.new.theory) }
        ensures defined { self.new.defined ≡ self.old.defined }

        // What was added to the clauses, and what of it was counted.
        ensures on { self.new.dead ≡ false → GoesOn (T.meaning self.old.theory) assume.now
            self.old.state self.new.state budget.old budget.new }
        ensures counted { HasCounted (T.meaning self.old.theory) assume.now self.old.defined
            self.old.state.clauses budget.old budget.new }

        // Only an assumption makes a one-sided variable true.
        ensures sided { self.new.dead ≡ false → AreTrueAsAssumed
            (T.meaning self.old.theory).may_give self.old.state.clauses assume.now
            self.new.state.trail.steps }

        ensures answer { result ≢ Answer.NoMemory → HasEnded (T.meaning self.old.theory)
            self.old.defined assume.now (length budget.old.units + slice) self.new.state
            budget.new result }
        ensures alive { result ≢ Answer.NoMemory → self.new.dead ≡ false }
        ensures dead { result ≡ Answer.NoMemory → self.new.dead ≡ true }
        ensures stays_dead { self.old.dead ≡ true → result ≡ Answer.NoMemory }
    {
        if let Err(_) = self.begin() {
            return Answer::NoMemory;
        }
        self.steering.begin(self.state.trail(), budget.used());
        let stop = stop_of(budget, slice);
        match self.run(alloc, assume, budget, stop) {
            Ok(answer) => {
                self.dead = false;
                answer
            }
            Err(_) => Answer::NoMemory,
        }
    }

    /// Takes turns until one ends with an answer.
    fn run(
        &mut self,
        alloc: Global,
        assumed: &[Lit],
        budget: &mut Budget,
        stop: u32,
    ) -> Result<Answer, NoMemory>
        requires may { MayTurn (T.meaning self.old.theory) (T.followed self.old.theory)
            self.old.state self.old.defined assumed.now stop budget.old }
        requires places { AreTrueBefore assumed.now self.old.state.trail.steps
            self.old.steering.places }
        ensures same { MeansTheSame (T.meaning self.old.theory) (T.meaning self.new.theory) }
        ensures defined { self.new.defined ≡ self.old.defined }
        ensures answer { IfOk result (λ answer. HasTurned (T.meaning self.old.theory)
            (T.meaning self.new.theory) (T.followed self.new.theory) self.old.defined
            self.new.defined assumed.now stop self.old.state self.new.state budget.old budget.new
            (Turn.Ended answer)) }
        ensures counted { HasCounted (T.meaning self.old.theory) assumed.now self.old.defined
            self.old.state.clauses budget.old budget.new }
        ensures dead { self.new.dead ≡ self.old.dead }
    {
        'turns: loop {
            match self.turn(alloc, assumed, budget, stop)? {
                Turn::Going => self.state.vouch(),
                Turn::Ended(answer) => return Ok(answer),
            }
        }
    }
}

/// How many clauses may be counted in all before this call ends.
fn stop_of(budget: &Budget, slice: u32) -> u32
    requires some { 1 ≤ slice }
    requires unused { length budget.now.units < budget.now.limit }
    ensures { IsStop slice budget.now result }
{
    let left = budget.limit() - budget.used();
    if slice < left {
        budget.used() + slice
    } else {
        budget.limit()
    }
}
