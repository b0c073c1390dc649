// Random programs with rules of all kinds, and walks on which founding is compared with its
// definition.
ghost use Rattle.normal_program.specs.Limit.{IsNormal};
ghost use Rattle.trial_coherence.specs.Ready.{IsOpen};

use crate::trials::answers::all_answers;
use crate::trials::founding_scene::FoundingScene;
use clause_store::Lit;
use ground_program::{Kind, Program, Sets};
use item_list::NoMemory;
use normal_program::Normal;
use rule_normaliser::normalise;
use std::alloc::Global;
use std::test::Fail;
use trial_inputs::{Draws, Recipe, has_true, random_program};

static RECIPE: Recipe = Recipe {
    atoms: 6,
    rules: 7,
    kinds: &[
        Kind::Basic,
        Kind::Constraint,
        Kind::Choice,
        Kind::Weight,
        Kind::Disjunctive,
    ],
    names: 0,
};

/// Whether a clause holds in all answer sets, by their extensions.
fn holds_in_all(answers: &Sets, clause: &[Lit]) -> bool {
    answers
        .as_slice()
        .iter()
        .all(|values| has_true(values.as_slice(), clause))
}

/// Whether the answer is right after one more literal, and its clause, if there is one, holds in
/// all answer sets.
fn is_right_after(
    alloc: Global,
    scene: &mut FoundingScene,
    answers: &Sets,
    code: u32,
) -> Result<bool, NoMemory>
    requires { IsOpen scene.old.normal scene.old.trail scene.old.founding }
    ensures { IsOpen scene.new.normal scene.new.trail scene.new.founding }
{
    scene.clause.clear();
    scene.assume(Lit(code));
    let right = scene.finds_what_is_left_over(alloc)?;
    let clause = scene.clause.as_slice();
    Ok(right && (clause.is_empty() || holds_in_all(answers, clause)))
}

/// Whether all answers are right while random literals are assumed, first on an empty trail.
fn walks(
    alloc: Global,
    scene: &mut FoundingScene,
    answers: &Sets,
    draws: &mut Draws,
) -> Result<bool, NoMemory>
    requires { IsOpen scene.old.normal scene.old.trail scene.old.founding }
    ensures { IsOpen scene.new.normal scene.new.trail scene.new.founding }
{
    scene.go_back(0);
    let mut code = 0;
    for _ in 0..10u32 {
        if !is_right_after(alloc, scene, answers, code)? {
            return Ok(false);
        }
        code = draws.up_to(31);
        scene.go_back(draws.up_to(8));
    }
    Ok(true)
}

/// Whether all answers are right on several walks.
fn walk_often(
    alloc: Global,
    draws: &mut Draws,
    scene: &mut FoundingScene,
    answers: &Sets,
) -> Result<bool, NoMemory>
    requires { IsOpen scene.old.normal scene.old.trail scene.old.founding }
{
    for _ in 0..8u32 {
        if !walks(alloc, scene, answers, draws)? {
            return Ok(false);
        }
    }
    Ok(true)
}

/// Whether all answers about a program are right.
fn are_right_for(
    alloc: Global,
    program: &Program,
    normal: Normal,
    draws: &mut Draws,
) -> Result<bool, NoMemory>
    requires { IsNormal normal }
{
    if program.atoms >= 16 {
        return Ok(false);
    }
    let answers = all_answers(alloc, program, &normal)?;
    let mut scene = FoundingScene::open(alloc, normal)?;
    walk_often(alloc, draws, &mut scene, &answers)
}

/// Whether all answers about one random program are right.
fn is_right_for_one(alloc: Global, draws: &mut Draws) -> Result<bool, NoMemory> {
    let Some(program) = random_program(alloc, &RECIPE, draws)? else {
        return Ok(false);
    };
    match normalise(alloc, &program) {
        Err(_) => Ok(false),
        Ok(normal) => are_right_for(alloc, &program, normal, draws),
    }
}

#[test]
fn founding_is_as_its_definition_says(rt: HostRuntime) -> Result<(), Fail> {
    let mut draws = Draws::of(2);
    for number in 0..100u32 {
        assert!(rt;
            is_right_for_one(rt.alloc(), &mut draws)?,
            "program {number}"
        );
    }
    Ok(())
}
