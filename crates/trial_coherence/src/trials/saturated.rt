// A saturated program: its one candidate has all atoms but one, and no rule tells without a search
// that no smaller set keeps its reduct. So small budgets are used up inside it.
ghost use Rattle.std.specs.Prelude.{◌≤◌};
ghost use Rattle.normal_program.specs.Limit.{IsNormal};
ghost use Rattle.normal_program.specs.Normal.{IsNormalFormOf};
ghost use Rattle.trial_coherence.specs.Ready.{IsReady};

use crate::trials::scene::Scene;
use clause_store::Clause;
use coherence_test::Asked;
use ground_program::Program;
use item_list::NoMemory;
use normal_program::Normal;
use rule_normaliser::normalise;
use std::alloc::Global;
use std::test::Fail;
use trial_inputs::program_of;

// 2 or 3, 4 or 5, 6 or 7. 8 where one of each two is true, in any way. 2 to 7 where 8. It is asked
// for 8. So the one answer set has 2 to 8, and it is minimal.
const SATURATED: &[u8] = b"8 2 2 3 0 0\n8 2 4 5 0 0\n8 2 6 7 0 0\n\
1 8 3 0 2 4 6\n1 8 3 0 2 4 7\n1 8 3 0 2 5 6\n1 8 3 0 2 5 7\n\
1 8 3 0 3 4 6\n1 8 3 0 3 4 7\n1 8 3 0 3 5 6\n1 8 3 0 3 5 7\n\
1 2 1 0 8\n1 3 1 0 8\n1 4 1 0 8\n1 5 1 0 8\n1 6 1 0 8\n1 7 1 0 8\n\
0\n2 a\n0\nB+\n8\n0\nB-\n1\n0\n1\n";

/// Budgets are 1 to this.
const GREATEST_BUDGET: u32 = 8;

/// Which budgets of a test are used up inside a set, each number by its bit. None where some answer
/// is wrong.
fn budgets_spent_inside(
    alloc: Global,
    program: &Program,
    normal: &Normal,
) -> Result<Option<u32>, NoMemory>
    requires normal { IsNormal normal.now }
    requires form { IsNormalFormOf normal.now program.now }
{
    let mut inside = 0;
    for limit in 1..GREATEST_BUDGET + 1 {
        match is_spent_inside(alloc, program, normal, limit)? {
            None => return Ok(None),
            Some(true) => inside |= 1 << limit,
            Some(false) => {}
        }
    }
    Ok(Some(inside))
}

/// Whether a new tester's budget is used up inside a set. None where the answer is wrong.
fn is_spent_inside(
    alloc: Global,
    program: &Program,
    normal: &Normal,
    limit: u32,
) -> Result<Option<bool>, NoMemory>
    requires normal { IsNormal normal.now }
    requires form { IsNormalFormOf normal.now program.now }
    requires some { 1 ≤ limit }
{
    match Scene::open(alloc, program, normal)? {
        None => Ok(None),
        Some(mut scene) => asks_for_any(alloc, &mut scene, limit),
    }
}

/// Asks a scene for any answer set.
fn asks_for_any(alloc: Global, scene: &mut Scene, limit: u32) -> Result<Option<bool>, NoMemory>
    requires ready { IsReady scene.old.program.now scene.old.normal.now scene.old.tester }
    requires some { 1 ≤ limit }
{
    let asked = Asked {
        assume: Clause::open(),
        any: None,
    };
    scene.is_spent_inside(alloc, &asked, limit)
}

/// The budgets that are used up inside the set of the saturated program.
fn spent_in_saturated(alloc: Global) -> Result<Option<u32>, NoMemory> {
    let Some(program) = program_of(alloc, SATURATED) else {
        return Ok(None);
    };
    match normalise(alloc, &program) {
        Err(_) => Ok(None),
        Ok(normal) => budgets_spent_inside(alloc, &program, &normal),
    }
}

/// Whether all answers are right, and of the budgets that are used up the smallest is one, and the
/// greatest isn't.
fn has_smallest_alone(inside: Option<u32>) -> bool {
    match inside {
        None => false,
        Some(budgets) => budgets & 0b10 != 0 && budgets >> GREATEST_BUDGET == 0,
    }
}

#[test]
fn small_budgets_are_spent_inside_a_saturated_set(rt: HostRuntime) -> Result<(), Fail> {
    let inside = spent_in_saturated(rt.alloc())?;
    assert!(rt; has_smallest_alone(inside), "{:?}", inside);
    Ok(())
}
