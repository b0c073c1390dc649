// Selectors that are defined between questions.
ghost use Rattle.std.specs.Prelude.{◌≡◌, ◌∷◌, [], ◌++◌, ◌<◌, ◌^◌, All, IfOk, OnErr, OnOk, false};
ghost use Rattle.std.specs.Prelude.{true};
ghost use Rattle.clause_store.specs.Clause.{HasNoVariableTwice, IsOver};
ghost use Rattle.clause_store.specs.Trail.{up_to};
ghost use Rattle.assumption_engine.specs.Theory.{MeansTheSame};
ghost use Rattle.assumption_engine.specs.Engine.{IsRight};
ghost use Rattle.assumption_engine.specs.Selector.{selector_clause};

use crate::engine::Engine;
use crate::theory::Theory;
use clause_store::{Clause, Lit, Var};
use item_list::NoMemory;
use std::alloc::Global;

impl<T: Theory> Engine<T> {
    /// Makes a variable a selector: from now on the models of the engine are those of its models so
    /// far in which the selector is false or some literal of `any` is true. The clause that says so
    /// is put last. It goes back to level 0. After want of memory the engine answers that alone.
    pub fn define(&mut self, alloc: Global, selector: Var, any: &[Lit]) -> Result<(), NoMemory>
        requires right { self.old.dead ≡ false → IsRight (T.meaning self.old.theory)
            (T.followed self.old.theory) self.old.state self.old.defined }
        requires over { self.old.dead ≡ false
            → All (IsOver self.old.state.trail.vars) (selector_clause selector.0 any.now) }
        requires once { HasNoVariableTwice (selector_clause selector.0 any.now) }
        ensures right { self.new.dead ≡ false → IsRight (T.meaning self.new.theory)
            (T.followed self.new.theory) self.new.state self.new.defined }
        ensures same { MeansTheSame (T.meaning self.old.theory) (T.meaning self.new.theory) }
        ensures defined { OnOk result (self.new.defined
            ≡ self.old.defined ++ selector_clause selector.0 any.now ∷ []) }
        ensures ok { OnOk result (self.new.state.clauses
            ≡ self.old.state.clauses ++ selector_clause selector.0 any.now ∷ []) }
        ensures back { OnOk result (self.new.state.trail
            ≡ record self.old.state.trail { steps = up_to 0 self.old.state.trail.steps }) }
        ensures alive { OnOk result (self.new.dead ≡ false) }
        ensures err { OnErr result (self.new.dead ≡ true) }
    {
        self.begin()?;
        let _vars = self.state.trail().vars();
        let clause = clause_of(alloc, selector, any)?;
        self.state.add(alloc, clause.as_slice())?;
        self.defined.push(alloc, clause)?;
        self.dead = false;
        Ok(())
    }
}

/// The clause of a selector.
fn clause_of(alloc: Global, selector: Var, any: &[Lit]) -> Result<Clause, NoMemory>
    requires { selector.0 < 2 ^ 31 }
    ensures { IfOk result (λ clause. clause ≡ selector_clause selector.0 any.now) }
{
    let mut clause = Clause::from_slice(alloc, any)?;
    clause.push(alloc, selector.negative())?;
    Ok(clause)
}
