// Clauses that are added between questions.
ghost use Rattle.std.specs.Prelude.{◌≡◌, ◌∷◌, [], ◌++◌, Bool, List, All, OnErr, OnOk, false, true};
ghost use Rattle.clause_store.specs.Clause.{HasNoVariableTwice, HoldsIn, IsOver};
ghost use Rattle.clause_store.specs.Trail.{up_to};
ghost use Rattle.assumption_engine.specs.Theory.{MeansTheSame};
ghost use Rattle.assumption_engine.specs.Engine.{IsModelOf, IsRight};

use crate::engine::Engine;
use crate::theory::Theory;
use clause_store::Lit;
use item_list::NoMemory;
use std::alloc::Global;

impl<T: Theory> Engine<T> {
    /// Puts a clause last that holds in all models, and goes back to level 0. After want of memory
    /// the engine answers that alone.
    pub fn add(&mut self, alloc: Global, lits: &[Lit]) -> Result<(), NoMemory>
        requires right { self.old.dead ≡ false → IsRight (T.meaning self.old.theory)
            (T.followed self.old.theory) self.old.state self.old.defined }
        requires over { self.old.dead ≡ false → All (IsOver self.old.state.trail.vars) lits.now }
        requires once { HasNoVariableTwice lits.now }
        requires holds { (values : List Bool)
            → IsModelOf (T.meaning self.old.theory) self.old.defined values
            → HoldsIn values lits.now }
        ensures right { self.new.dead ≡ false → IsRight (T.meaning self.new.theory)
            (T.followed self.new.theory) self.new.state self.new.defined }
        ensures same { MeansTheSame (T.meaning self.old.theory) (T.meaning self.new.theory) }
        ensures defined { self.new.defined ≡ self.old.defined }
        ensures ok { OnOk result
            (self.new.state.clauses ≡ self.old.state.clauses ++ lits.now ∷ []) }
        ensures back { OnOk result (self.new.state.trail
            ≡ record self.old.state.trail { steps = up_to 0 self.old.state.trail.steps }) }
        ensures alive { OnOk result (self.new.dead ≡ false) }
        ensures err { OnErr result (self.new.dead ≡ true) }
    {
        self.begin()?;
        self.state.add(alloc, lits)?;
        self.dead = false;
        Ok(())
    }
}
