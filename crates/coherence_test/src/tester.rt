// Tests of what the answer sets of a normal form meet.
ghost use Rattle.std.specs.Prelude.{◌≡◌, ◌≢◌, ◌≤◌, ◌<◌, ◌+◌, ◌-◌, ◌++◌, ◌∷◌, [], IfOk, OnErr, OnOk};
ghost use Rattle.std.specs.Prelude.{false, true, option_to_list, IfNone, IfSome};
ghost use Rattle.std.specs.Prelude.{length};
ghost use Rattle.normal_program.specs.Clauses.{base_clauses};
ghost use Rattle.normal_program.specs.Limit.{IsNormal};
ghost use Rattle.normal_program.specs.Spent.{selector_clauses};
ghost use Rattle.short_clauses.specs.Shareable.{IsShareable};
ghost use Rattle.coherence_test.specs.Asked.{IsRefuted, IsTested, IsTestedAt};
ghost use Rattle.coherence_test.specs.Selectors.{AreUsed, IsImport};
ghost use Rattle.coherence_test.specs.Sharing.{HasNoted};
ghost use Rattle.coherence_test.specs.Testing.{AreCountedBeside, HasAdded, HasCountedUnits};
ghost use Rattle.coherence_test.specs.Testing.{IsPast, MayAsk};
ghost use Rattle.coherence_test.specs.Testing.{opened, selectors, used_by};

use crate::asked::{Asked, Tested};
use crate::search::Search;
use crate::sharing::note;
use crate::theory::{AnswerSetTheory, has_disjunction};
use assumption_engine::Engine;
use clause_store::{Budget, Clause, Lit, Short, Store, Trail, Units, Value};
use completion::complete;
use item_list::NoMemory;
use normal_program::{Normal, base_clauses_are_entailed, base_clauses_are_over_atoms_and_bodies};
use std::alloc::Global;
use std::marker::Model;

/// Tests of what the answer sets of a normal form meet. What one test learned serves the next.
/// After want of memory it answers that alone.
#[derive(Drop)]
pub struct Tester<'a> {
    search: Search<'a>,
    left: Vec<Short>,
    dead: bool,
}

impl<'a> Model for Tester<'a> {
    ghost use Rattle.coherence_test.specs.Testing.{Testing, IsKept};
    ghost use Rattle.coherence_test.specs.Sharing.{AreShareable};

    ghost Value = { Testing };

    ghost view = { λ it. record {
      normal = it.search.normal.now;
      clauses = it.search.engine.state.clauses;
      disjunctions = it.search.disjunctions;
      left = it.left.items;
      dead = it.dead;
    } };

    ghost invariant = { λ it.
        IsKept it.search.normal.now it.search.engine it.search.disjunctions it.dead
        × AreShareable it.search.normal.now it.left.items };
}

impl<'a> Tester<'a> {
    /// A tester with the base clauses of a normal form.
    pub fn open(alloc: Global, normal: &'a Normal) -> Result<Tester<'a>, NoMemory>
        requires { IsNormal normal.now }
        ensures { IfOk result (λ it. it ≡ opened normal.now) }
    {
        let mut store = Store::open();
        complete(alloc, normal, &mut store)?;
        Tester::over(alloc, normal, store)
    }

    /// The same tester, with a copy of the completed store in place of completion.
    pub fn open_over(
        alloc: Global,
        normal: &'a Normal,
        completed: &Store,
    ) -> Result<Tester<'a>, NoMemory>
        requires normal { IsNormal normal.now }
        requires completed { completed.now ≡ base_clauses normal.now }
        ensures { IfOk result (λ it. it ≡ opened normal.now) }
    {
        let store = completed.copy(alloc)?;
        Tester::over(alloc, normal, store)
    }

    /// The same tester, which decides in the order of another tester of the normal form, and as
    /// that one did last. It takes no clause from there.
    pub fn open_after(
        alloc: Global,
        completed: &Store,
        other: &Tester<'a>,
    ) -> Result<Tester<'a>, NoMemory>
        requires { completed.now ≡ base_clauses other.now.normal }
        ensures { IfOk result (λ it. it ≡ opened other.now.normal) }
    {
        let mut tester = Tester::open_over(alloc, other.search.normal, completed)?;
        tester.take_after(alloc, other)?;
        Ok(tester)
    }

    /// Decides in the order of another tester, and as that one did last.
    fn take_after(&mut self, alloc: Global, other: &Tester<'a>) -> Result<(), NoMemory>
        ensures { self.new ≡ self.old }
    {
        self.search.engine.take_after(alloc, &other.search.engine)
    }

    /// A tester with the clauses of a completed store.
    fn over(alloc: Global, normal: &'a Normal, store: Store) -> Result<Tester<'a>, NoMemory>
        requires normal { IsNormal normal.now }
        requires completed { store ≡ base_clauses normal.now }
        ensures { IfOk result (λ it. it ≡ opened normal.now) }
    {
        base_clauses_are_over_atoms_and_bodies();
        base_clauses_are_entailed();
        let theory = AnswerSetTheory::open(alloc, normal)?;
        let vars = normal.variables();
        let engine = Engine::open(alloc, vars, store, theory)?;
        Ok(Tester {
            search: Search {
                normal,
                engine,
                disjunctions: Units::open(),
            },
            left: Vec::new(alloc),
            dead: false,
        })
    }

    /// Lets the variables of these literals be decided first, as these literals, until conflicts
    /// say otherwise. No answer depends on it.
    pub fn prefer(&mut self, lits: &[Lit])
        ensures { self.new ≡ self.old }
    {
        self.search.engine.prefer(lits);
    }

    /// Seeks literals from the next test on, and no others, but for those that the last assignment
    /// of another tester makes true: each is decided first, as it is, until the test has had some
    /// conflicts, or for good once an answer set made it true. So one answer set shows many of
    /// them. Where a rule is disjunctive nothing is sought. No answer depends on it.
    pub fn seek(
        &mut self,
        alloc: Global,
        lits: &[Lit],
        other: Option<&Tester<'a>>,
    ) -> Result<(), NoMemory>
        ensures { self.new ≡ self.old }
    {
        if has_disjunction(self.search.normal) {
            return Ok(());
        }
        let left = match other {
            Some(other) => not_true_on(alloc, lits, other.search.engine.trail())?,
            None => Clause::from_slice(alloc, lits)?,
        };
        self.search.engine.seek(alloc, left.as_slice())
    }

    /// How many disjunctions that are new may still be asked for.
    pub fn selectors_left(&self) -> u32
        ensures left { result ≡ selectors self.now.normal - length self.now.disjunctions }
        ensures few { length self.now.disjunctions ≤ selectors self.now.normal }
    {
        let normal = self.search.normal;
        normal.names.len() as u32 + 1 - self.search.disjunctions.len() as u32
    }

    /// What is true of the clauses, as contracts know it then. It does nothing when it runs.
    pub fn vouch(&self)
        requires { self.now.dead ≡ false }
        ensures { IsPast self.now.normal self.now.clauses self.now.disjunctions }
    {
        let _ = &self.dead;
    }

    /// Puts a clause last that holds in every answer set. After want of memory the tester answers
    /// that alone.
    pub fn import(&mut self, alloc: Global, lits: &[Lit]) -> Result<(), NoMemory>
        requires { self.old.dead ≡ false → IsImport self.old.normal lits.now }
        ensures ok { OnOk result (self.new ≡ record self.old {
          clauses = self.old.clauses ++ lits.now ∷ [];
        }) }
        ensures alive { OnOk result (self.old.dead ≡ false) }
        ensures err { OnErr result (self.new.dead ≡ true) }
        ensures normal { self.new.normal ≡ self.old.normal }
        ensures disjunctions { self.new.disjunctions ≡ self.old.disjunctions }
        ensures left { self.new.left ≡ self.old.left }
    {
        if self.dead {
            return Err(NoMemory);
        }
        self.dead = true;
        self.search.import(alloc, lits)?;
        self.dead = false;
        Ok(())
    }

    /// Looks for an answer set that makes each literal of `asked.assume` true and, where it is
    /// there, some literal of `asked.any`. At most `slice` clauses are counted. After want of
    /// memory the tester answers that alone.
    pub fn test(&mut self, alloc: Global, asked: &Asked, budget: &mut Budget, slice: u32) -> Tested
        requires may { self.old.dead ≡ false
            → MayAsk self.old.normal self.old.disjunctions asked.now }
        requires some { 1 ≤ slice }
        requires unused { length budget.old.units < budget.old.limit }

        // What the answer says, and how many clauses were counted where it comes.
        ensures answer { IsTested self.old.normal asked.now result }
        ensures at { result ≢ Tested.NoMemory
            → IsTestedAt (length budget.old.units + slice) budget.new result }

        // What was added to the clauses, and what of it was counted.
        ensures added { result ≢ Tested.NoMemory → HasAdded self.old.normal self.new.disjunctions
            self.old.clauses self.new.clauses budget.old budget.new }
        ensures counted { HasCountedUnits self.old.normal self.new.disjunctions self.old.clauses
            (used_by asked.now.any self.new.disjunctions) budget.old budget.new }

        // It is worth counting beside the clauses of the selectors in use too.
        ensures beside { result ≢ Tested.NoMemory → AreCountedBeside
            (self.old.clauses ++ selector_clauses self.old.normal self.new.disjunctions)
            budget.old budget.new }

        // What of it is to be handed on.
        ensures noted { result ≢ Tested.NoMemory
            → HasNoted self.old.normal budget.old budget.new self.old.left self.new.left }

        ensures used { result ≢ Tested.NoMemory
            → AreUsed self.old.disjunctions asked.now.any self.new.disjunctions }
        ensures alive { result ≢ Tested.NoMemory → self.new.dead ≡ false }
        ensures dead { result ≡ Tested.NoMemory → self.new.dead ≡ true }
        ensures stays_dead { self.old.dead ≡ true → result ≡ Tested.NoMemory }
        ensures normal { self.new.normal ≡ self.old.normal }
    {
        if self.dead {
            return Tested::NoMemory;
        }
        self.dead = true;
        let before = budget.used() as usize;
        match self.search.test(alloc, asked, budget, slice) {
            Ok(tested) => {
                let counted = &budget.units().as_slice()[before..];
                if let Err(_) = note(self.search.normal, counted, &mut self.left) {
                    return Tested::NoMemory;
                }
                self.dead = false;
                tested
            }
            Err(_) => Tested::NoMemory,
        }
    }

    /// The literal that the assignment at a place makes false, where that is one of level 0. No
    /// answer set makes it true, if it is of an atom or a body. The assignments of level 0 come
    /// first, from place 0 on, and stay there. After want of memory there is none.
    pub fn refuted_at(&self, place: u32) -> Option<Lit>
        ensures { IfSome result (IsRefuted self.now.normal) }
    {
        if self.dead {
            return None;
        }
        self.search.refuted_at(place)
    }

    /// Gives a clause of one to three literals without a selector that was counted by a test and
    /// wasn't given before. There is none only where none is left. It takes no memory.
    pub fn take_shareable(&mut self) -> Option<Short>
        ensures taken { self.old.left ≡ self.new.left ++ option_to_list result }
        ensures none { IfNone result (self.old.left ≡ []) }
        ensures shareable { IfSome result (IsShareable self.old.normal) }
        ensures same { self.new ≡ record self.old { left = self.new.left } }
    {
        self.left.pop()
    }
}

/// The literals that aren't true on a trail.
fn not_true_on(alloc: Global, lits: &[Lit], trail: &Trail) -> Result<Clause, NoMemory> {
    let mut left = Clause::open();
    for lit in lits {
        if !trail.has(*lit) || trail.value(*lit) != Value::Yes {
            left.push(alloc, *lit)?;
        }
    }
    Ok(left)
}
