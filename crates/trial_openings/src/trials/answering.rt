// What a tester answers of one literal, and whether a set that it finds is right.
ghost use Rattle.std.specs.Prelude.{◌≡◌, IfOk};
ghost use Rattle.clause_store.specs.Clause.{IsOver};
ghost use Rattle.normal_program.specs.Clauses.{base_clauses};
ghost use Rattle.normal_program.specs.Limit.{IsNormal};
ghost use Rattle.normal_program.specs.Normal.{greatest_body_var};

use clause_store::{Budget, Clause, Lit, Store};
use coherence_test::{Asked, Tested, Tester};
use completion::complete;
use ground_program::{Program, Set};
use item_list::NoMemory;
use normal_program::Normal;
use plain_answer_sets::is_answer_set;
use std::alloc::Global;
use trial_inputs::{extension, is_true};

/// More clauses than a test of a small program counts.
const MANY: u32 = 100_000;

/// What a tester answers where a literal is assumed.
pub fn answer(alloc: Global, tester: &mut Tester, lit: Lit) -> Result<Tested, NoMemory>
    requires { IsOver (greatest_body_var tester.old.normal) lit }
    ensures { tester.new.normal ≡ tester.old.normal }
{
    let mut assume = Clause::open();
    assume.push(alloc, lit)?;
    let asked = Asked { assume, any: None };
    let mut budget = Budget::new(MANY);
    Ok(tester.test(alloc, &asked, &mut budget, MANY))
}

/// Whether a set is an answer set in whose extension a literal is true.
pub fn is_right(
    alloc: Global,
    program: &Program,
    normal: &Normal,
    set: &Set,
    lit: Lit,
) -> Result<bool, NoMemory> {
    let values = extension(alloc, normal, set.as_slice(), set.as_slice())?;
    if !is_true(values.as_slice(), lit) {
        return Ok(false);
    }
    is_answer_set(alloc, program, set)
}

/// The completed store of a normal form.
pub fn completed_of(alloc: Global, normal: &Normal) -> Result<Store, NoMemory>
    requires { IsNormal normal.now }
    ensures { IfOk result (λ it. it ≡ base_clauses normal.now) }
{
    let mut store = Store::open();
    complete(alloc, normal, &mut store)?;
    Ok(store)
}
