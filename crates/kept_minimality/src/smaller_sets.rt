// The search among pairs, kept from one set to the next.
ghost use Rattle.std.specs.Prelude.{◌≡◌, ◌≢◌, ◌≤◌, [], IfNone, IfOk, IfSome};
ghost use Rattle.ground_program.specs.Meaning.{IsSetOver};
ghost use Rattle.normal_program.specs.Limit.{IsNormal};
ghost use Rattle.minimality_test.specs.Minimality.{HasAnswered};
ghost use Rattle.kept_minimality.specs.Kept.{IsPairForm, IsTooLarge};

use crate::asking::{open_engine, pair_form, read_answer};
use crate::assuming::assume;
use crate::theory::PairTheory;
use assumption_engine::Engine;
use clause_store::{Budget, Clause};
use ground_program::Set;
use item_list::NoMemory;
use minimality_test::Minimality;
use normal_program::Normal;
use std::alloc::Global;
use std::marker::Model;
use std::snapshot::Snapshot;

/// A search for smaller sets that keep the rules of a normal form's reduct by a set. It is opened
/// once, and asked for one set after another; what it learned for one serves the next. Clauses see
/// it as the normal form.
///
/// After want of memory in its search it answers that alone.
#[derive(Drop)]
pub struct SmallerSets {
    source: Snapshot<Normal>,
    engine: Engine<PairTheory>,
    assumed: Clause,
}

impl Model for SmallerSets {
    ghost use Rattle.kept_minimality.specs.Kept.{IsKept};
    ghost use Rattle.normal_program.specs.declared.normal.Normal.{Normal};

    ghost Value = { Normal };

    ghost view = { λ it. it.source.value };

    ghost invariant = { λ it. IsKept it.source.value it.engine };
}

impl SmallerSets {
    /// A search among the pairs of a normal form. There is none only where its pair program is too
    /// large.
    pub fn open(alloc: Global, normal: &Normal) -> Result<Option<SmallerSets>, NoMemory>
        requires { IsNormal normal.now }
        ensures of { IfOk result (λ it. IfSome it (λ kept. kept ≡ normal.now)) }
        ensures none { IfOk result (λ it. IfNone it (IsTooLarge normal.now)) }
    {
        match pair_form(alloc, normal)? {
            None => Ok(None),
            Some(pair) => Ok(Some(SmallerSets::over(alloc, normal, pair)?)),
        }
    }

    /// A search among the models of the pair program with this normal form.
    fn over(alloc: Global, normal: &Normal, pair: Normal) -> Result<SmallerSets, NoMemory>
        requires normal { IsNormal normal.now }
        requires pair { IsPairForm normal.now pair }
        ensures { IfOk result (λ it. it ≡ normal.now) }
    {
        let engine = open_engine(alloc, normal, pair)?;
        Ok(SmallerSets {
            source: Snapshot::of(normal),
            engine,
            assumed: Clause::open(),
        })
    }

    /// Whether a proper subset of the set keeps the rules of the reduct by the set. The budget is
    /// unused; what it counts then are clauses of this search.
    pub fn smaller(&mut self, alloc: Global, set: &Set, budget: &mut Budget) -> Minimality
        requires over { IsSetOver self.old.atoms set.now }
        requires unused { budget.old.units ≡ [] }
        requires some { 1 ≤ budget.old.limit }

        // Smaller gives such a subset, at Minimal there is none, and Spent comes just where as many
        // clauses as the limit were counted.
        ensures answer { HasAnswered self.old set.now budget.new result }

        ensures limit { budget.new.limit ≡ budget.old.limit }
        ensures same { self.new ≡ self.old }
    {
        match self.search(alloc, set, budget) {
            Ok(answer) => answer,
            Err(_) => Minimality::NoMemory,
        }
    }

    /// Asks for a pair whose whole is the set.
    fn search(
        &mut self,
        alloc: Global,
        set: &Set,
        budget: &mut Budget,
    ) -> Result<Minimality, NoMemory>
        requires over { IsSetOver self.old.atoms set.now }
        requires unused { budget.old.units ≡ [] }
        requires some { 1 ≤ budget.old.limit }
        ensures answer { IfOk result (HasAnswered self.old set.now budget.new) }
        ensures limit { budget.new.limit ≡ budget.old.limit }
        ensures same { self.new ≡ self.old }
    {
        assume(alloc, set, &mut self.assumed)?;
        let limit = budget.limit();
        let answer = self
            .engine
            .ask(alloc, self.assumed.as_slice(), budget, limit);
        let atoms = set.len() as u32 - 1;
        read_answer(alloc, self.engine.trail(), atoms, answer)
    }
}
