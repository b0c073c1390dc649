// A tester of a program, and the answer sets of the program.
ghost use Rattle.std.specs.Prelude.{◌≡◌, ◌≤◌, ◌<◌, ◌↔◌, length, All, IfOk, IfSome, IsTrue};
ghost use Rattle.clause_store.specs.Clause.{HasNoVariableTwice, IsOver};
ghost use Rattle.normal_program.specs.Clauses.{base_clauses};
ghost use Rattle.normal_program.specs.Limit.{IsNormal};
ghost use Rattle.normal_program.specs.Normal.{IsNormalFormOf, greatest_body_var};
ghost use Rattle.coherence_test.specs.Selectors.{IsImport};
ghost use Rattle.coherence_test.specs.Testing.{MayAsk};
ghost use Rattle.trial_coherence.specs.Ready.{IsReady};

use crate::trials::answers::{all_answers, is_core, meets};
use crate::trials::inside::is_spent_within;
use crate::trials::tallies::{Kinds, Stops};
use clause_store::{Budget, Clause, Lit, Store, Units};
use coherence_test::{Asked, Tested, Tester};
use completion::complete;
use ground_program::{Program, Set, Sets};
use item_list::NoMemory;
use normal_program::Normal;
use plain_answer_sets::is_answer_set;
use plain_entailment::is_entailed;
use std::alloc::Global;
use trial_inputs::extension;

/// A program, its normal form, a tester of it, and the extensions of its answer sets.
#[derive(Drop)]
pub struct Scene<'a> {
    pub program: &'a Program,
    pub normal: &'a Normal,
    pub tester: Tester<'a>,
    pub extensions: Sets,
    /// How many questions were put. Each begins with the next budget and slice.
    pub put: u32,
    pub stops: Stops,
    /// The clauses that tests counted since it was last seen which are handed on.
    pub counted: Units,
    pub kinds: Kinds,
}

impl<'a> Scene<'a> {
    /// The scene of a program. None is one of 16 atoms and more.
    pub fn open(
        alloc: Global,
        program: &'a Program,
        normal: &'a Normal,
    ) -> Result<Option<Scene<'a>>, NoMemory>
        requires normal { IsNormal normal.now }
        requires form { IsNormalFormOf normal.now program.now }
        ensures { IfOk result (λ it.
            IfSome it (λ scene. IsReady scene.program.now scene.normal.now scene.tester)) }
    {
        if program.atoms >= 16 {
            return Ok(None);
        }
        let extensions = all_answers(alloc, program, normal)?;
        let tester = Tester::open(alloc, normal)?;
        Ok(Some(Scene {
            program,
            normal,
            tester,
            extensions,
            put: 0,
            stops: Stops::none(),
            counted: Units::open(),
            kinds: Kinds::none(),
        }))
    }

    /// A scene of the same program, whose tester is opened over a completed store.
    pub fn copied(&self, alloc: Global, completed: &Store) -> Result<Scene<'a>, NoMemory>
        requires ready { IsReady self.now.program.now self.now.normal.now self.now.tester }
        requires completed { completed.now ≡ base_clauses self.now.normal.now }
        ensures { IfOk result (λ it. IsReady it.program.now it.normal.now it.tester) }
    {
        let tester = Tester::open_over(alloc, self.normal, completed)?;
        self.with(alloc, tester)
    }

    /// The same, whose tester is opened after that of this scene.
    pub fn followed(&self, alloc: Global, completed: &Store) -> Result<Scene<'a>, NoMemory>
        requires ready { IsReady self.now.program.now self.now.normal.now self.now.tester }
        requires completed { completed.now ≡ base_clauses self.now.normal.now }
        ensures { IfOk result (λ it. IsReady it.program.now it.normal.now it.tester) }
    {
        let tester = Tester::open_after(alloc, completed, &self.tester)?;
        self.with(alloc, tester)
    }

    /// A scene of the same program with another tester.
    fn with(&self, alloc: Global, tester: Tester<'a>) -> Result<Scene<'a>, NoMemory>
        requires { IsReady self.now.program.now self.now.normal.now tester }
        ensures { IfOk result (λ it. IsReady it.program.now it.normal.now it.tester) }
    {
        let extensions = self.extensions.copy(alloc)?;
        Ok(Scene {
            program: self.program,
            normal: self.normal,
            tester,
            extensions,
            put: 0,
            stops: Stops::none(),
            counted: Units::open(),
            kinds: Kinds::none(),
        })
    }

    /// The greatest variable of an atom or a body.
    pub fn greatest(&self) -> u32
        requires { IsReady self.now.program.now self.now.normal.now self.now.tester }
    {
        self.normal.greatest_body_var()
    }

    /// Whether this may be asked: a disjunction of up to three literals, for which a selector is
    /// left.
    fn may_ask(&self, asked: &Asked) -> bool
        requires { IsReady self.now.program.now self.now.normal.now self.now.tester }
        ensures { IsTrue result
            → MayAsk self.now.normal.now self.now.tester.disjunctions asked.now }
    {
        let greatest = self.normal.greatest_body_var();
        if !are_over(greatest, asked.assume.as_slice()) {
            return false;
        }
        match &asked.any {
            None => true,
            Some(any) => {
                is_clause_over(greatest, any.as_slice()) && self.tester.selectors_left() > 0
            }
        }
    }

    /// Asks once, where it may be asked, and notes what is counted. None is want of memory, or a
    /// question that may not be.
    fn ask(
        &mut self,
        alloc: Global,
        asked: &Asked,
        budget: &mut Budget,
        turn: u32,
    ) -> Result<Option<Tested>, NoMemory>
        requires { IsReady self.old.program.now self.old.normal.now self.old.tester }
        ensures { IsReady self.new.program.now self.new.normal.now self.new.tester }
    {
        if !self.may_ask(asked) {
            return Ok(None);
        }
        fill(budget, turn);
        let before = budget.used() as usize;
        let tested = self.tester.test(alloc, asked, budget, slice_at(turn));
        put_after(alloc, budget.units(), before, &mut self.counted)?;
        match tested {
            Tested::NoMemory => Ok(None),
            tested => Ok(Some(tested)),
        }
    }

    /// Asks until the answer is Found or Core, with budgets of 1 to 5 and greater ones, and slices
    /// of 1 and 2, of which each question begins with the next. None is want of memory, a question
    /// that may not be asked, one that takes too long, or a test that is wrongly spent inside a set.
    pub fn settle(&mut self, alloc: Global, asked: &Asked) -> Result<Option<Tested>, NoMemory>
        requires { IsReady self.old.program.now self.old.normal.now self.old.tester }
        ensures { IsReady self.new.program.now self.new.normal.now self.new.tester }
    {
        let start = self.put % 10;
        self.put = self.put.wrapping_add(1);
        let mut budget = Budget::new(budget_at(start));
        for turn in start..start + 1000 {
            let Some(tested) = self.ask(alloc, asked, &mut budget, turn)? else {
                return Ok(None);
            };
            if !is_stop(&tested) {
                return Ok(Some(tested));
            }
            self.stops.count(&tested, budget.limit(), slice_at(turn));
            if !self.may_go_on(alloc, asked, &tested, &mut budget)? {
                return Ok(None);
            }
        }
        Ok(None)
    }

    /// Whether a stop is right. Where a test was spent inside a set, the next budget is twice as
    /// great.
    fn may_go_on(
        &self,
        alloc: Global,
        asked: &Asked,
        tested: &Tested,
        budget: &mut Budget,
    ) -> Result<bool, NoMemory>
        requires { IsReady self.now.program.now self.now.normal.now self.now.tester }
    {
        let Tested::SpentInside { set, units } = tested else {
            return Ok(true);
        };
        let limit = budget.limit();
        *budget = Budget::new(limit.saturating_mul(2));
        Ok(units.len() == limit as usize && self.is_inside(alloc, asked, set, units)?)
    }

    /// Whether a test with an unused budget of this limit is spent inside a set. None where the
    /// answer is wrong, or the question may not be asked.
    pub fn is_spent_inside(
        &mut self,
        alloc: Global,
        asked: &Asked,
        limit: u32,
    ) -> Result<Option<bool>, NoMemory>
        requires ready { IsReady self.old.program.now self.old.normal.now self.old.tester }
        requires some { 1 ≤ limit }
    {
        if !self.may_ask(asked) {
            return Ok(None);
        }
        let mut budget = Budget::new(limit);
        let tested = self.tester.test(alloc, asked, &mut budget, limit);
        self.judge_stop(alloc, asked, limit, &tested)
    }

    /// Whether an answer is rightly spent inside a set, or right in another way.
    fn judge_stop(
        &self,
        alloc: Global,
        asked: &Asked,
        limit: u32,
        tested: &Tested,
    ) -> Result<Option<bool>, NoMemory>
        requires { IsReady self.now.program.now self.now.normal.now self.now.tester }
    {
        let Tested::SpentInside { set, units } = tested else {
            let right = self.is_right(alloc, asked, tested)?;
            return Ok(if right { Some(false) } else { None });
        };
        let right = units.len() == limit as usize && self.is_inside(alloc, asked, set, units)?;
        Ok(if right { Some(true) } else { None })
    }

    /// Whether a set meets what was asked, and a test inside it is spent on these units.
    fn is_inside(
        &self,
        alloc: Global,
        asked: &Asked,
        set: &Set,
        units: &Units,
    ) -> Result<bool, NoMemory>
        requires { IsReady self.now.program.now self.now.normal.now self.now.tester }
    {
        if !self.is_met(alloc, asked, set)? {
            return Ok(false);
        }
        is_spent_within(alloc, self.program, self.normal, set, units)
    }

    /// Whether a question is answered, and rightly.
    pub fn answers(&mut self, alloc: Global, asked: &Asked) -> Result<bool, NoMemory>
        requires { IsReady self.old.program.now self.old.normal.now self.old.tester }
        ensures { IsReady self.new.program.now self.new.normal.now self.new.tester }
    {
        match self.settle(alloc, asked)? {
            None => Ok(false),
            Some(tested) => self.is_right(alloc, asked, &tested),
        }
    }

    /// Whether an answer is right.
    pub fn is_right(
        &self,
        alloc: Global,
        asked: &Asked,
        tested: &Tested,
    ) -> Result<bool, NoMemory> {
        match tested {
            Tested::Found(set) => self.is_found(alloc, asked, set),
            Tested::Core(core) => Ok(is_core(&self.extensions, asked, core)),
            Tested::Spent | Tested::SpentInside { .. } | Tested::Paused | Tested::NoMemory => {
                Ok(false)
            }
        }
    }

    /// Whether a set is an answer set that meets what was asked.
    fn is_found(&self, alloc: Global, asked: &Asked, set: &Set) -> Result<bool, NoMemory> {
        if !self.is_met(alloc, asked, set)? {
            return Ok(false);
        }
        is_answer_set(alloc, self.program, set)
    }

    /// Whether the extension of a set meets what was asked.
    fn is_met(&self, alloc: Global, asked: &Asked, set: &Set) -> Result<bool, NoMemory> {
        let values = extension(alloc, self.normal, set.as_slice(), set.as_slice())?;
        Ok(meets(values.as_slice(), asked.assume.as_slice(), &asked.any))
    }

    /// Takes a clause from outside, where it holds in every answer set. Whether it does.
    pub fn import(&mut self, alloc: Global, clause: &Clause) -> Result<bool, NoMemory>
        requires { IsReady self.old.program.now self.old.normal.now self.old.tester }
        ensures { IsReady self.new.program.now self.new.normal.now self.new.tester }
    {
        if !self.may_import(alloc, clause)? {
            return Ok(false);
        }
        self.tester.import(alloc, clause.as_slice())?;
        Ok(true)
    }

    /// Whether a clause holds in every answer set. It has up to three literals.
    fn may_import(&self, alloc: Global, clause: &Clause) -> Result<bool, NoMemory>
        requires { IsReady self.now.program.now self.now.normal.now self.now.tester }
        ensures { IfOk result (λ yes. IsTrue yes → IsImport self.now.normal.now clause.now) }
    {
        if !is_clause_over(self.normal.greatest_body_var(), clause.as_slice()) {
            return Ok(false);
        }
        let none = Units::open();
        let entailed = is_entailed(alloc, self.program, self.normal, &none, clause)?;
        Ok(entailed)
    }
}

/// The completed store of a normal form.
pub fn completed_of(alloc: Global, normal: &Normal) -> Result<Store, NoMemory>
    requires { IsNormal normal.now }
    ensures { IfOk result (λ it. it ≡ base_clauses normal.now) }
{
    let mut store = Store::open();
    complete(alloc, normal, &mut store)?;
    Ok(store)
}

/// Whether an answer asks for another budget or another turn.
fn is_stop(tested: &Tested) -> bool {
    matches!(
        tested,
        Tested::Spent | Tested::Paused | Tested::SpentInside { .. }
    )
}

/// Puts the clauses from one place on last.
fn put_after(
    alloc: Global,
    units: &Units,
    before: usize,
    counted: &mut Units,
) -> Result<(), NoMemory> {
    for unit in units.as_slice().iter().skip(before) {
        let copy = unit.copy(alloc)?;
        counted.push(alloc, copy)?;
    }
    Ok(())
}

/// Makes a budget that is used up anew.
fn fill(budget: &mut Budget, turn: u32)
    ensures { length budget.new.units < budget.new.limit }
{
    if budget.used() == budget.limit() {
        *budget = Budget::new(budget_at(turn));
    }
}

/// The limit of a budget that is opened at a turn: 1 to 5 one after the other.
fn budget_at(turn: u32) -> u32
    ensures { 1 ≤ result }
{
    1 + turn % 5
}

/// How many clauses may be counted at a turn: 1 and 2 by turns.
fn slice_at(turn: u32) -> u32
    ensures { 1 ≤ result }
{
    1 + turn % 2
}

/// Whether the variables of literals are 1 to `greatest`.
fn are_over(greatest: u32, lits: &[Lit]) -> bool
    ensures { IsTrue result ↔ All (IsOver greatest) lits.now }
{
    lits.iter().all(|lit| is_over(greatest, *lit))
}

fn is_over(greatest: u32, lit: Lit) -> bool
    ensures { IsTrue result ↔ IsOver greatest lit }
{
    let var = lit.var().0;
    1 <= var && var <= greatest
}

/// Whether these are up to three literals with different variables of 1 to `greatest`.
fn is_clause_over(greatest: u32, lits: &[Lit]) -> bool
    ensures over { IsTrue result → All (IsOver greatest) lits.now }
    ensures once { IsTrue result → HasNoVariableTwice lits.now }
{
    if !are_over(greatest, lits) {
        return false;
    }
    differ(lits)
}

/// Whether these are up to three literals with different variables.
fn differ(lits: &[Lit]) -> bool
    ensures { IsTrue result → HasNoVariableTwice lits.now }
{
    match lits {
        [] | [_] => true,
        [one, two] => one.var().0 != two.var().0,
        [one, two, three] => {
            one.var().0 != two.var().0
                && one.var().0 != three.var().0
                && two.var().0 != three.var().0
        }
        _ => false,
    }
}
