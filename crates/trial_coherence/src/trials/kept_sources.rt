// Founding that is kept from call to call: atoms are founded once, and walks on which it finds what
// founding from nothing finds.
ghost use Rattle.normal_program.specs.Limit.{IsNormal};
ghost use Rattle.trial_coherence.specs.Ready.{IsOpen};

use crate::trials::founding_scene::FoundingScene;
use clause_store::Lit;
use ground_program::Kind;
use item_list::NoMemory;
use normal_program::Normal;
use rule_normaliser::normalise;
use std::alloc::Global;
use std::test::Fail;
use trial_inputs::{Draws, Recipe, normal_of, random_program};

static RECIPE: Recipe = Recipe {
    atoms: 24,
    rules: 36,
    kinds: &[
        Kind::Basic,
        Kind::Basic,
        Kind::Constraint,
        Kind::Choice,
        Kind::Weight,
        Kind::Disjunctive,
    ],
    names: 0,
};

/// The text of a program with so many atoms, each of which may be chosen by a rule of its own.
fn choices(alloc: Global, atoms: u32) -> Result<String, NoMemory> {
    let mut text = String::new(alloc);
    for atom in 1..atoms.saturating_add(1) {
        text.push_str(&format!(in alloc; "3 1 {atom} 0 0\n")?)?;
    }
    text.push_str("0\n0\nB+\n0\nB-\n0\n1\n")?;
    Ok(text)
}

/// Makes the atoms up to one true.
fn assume_up_to(scene: &mut FoundingScene, last: u32)
    requires { IsOpen scene.old.normal scene.old.trail scene.old.founding }
    ensures { IsOpen scene.new.normal scene.new.trail scene.new.founding }
{
    for atom in 1..last.saturating_add(1) {
        scene.assume(Lit(atom.saturating_mul(2)));
    }
}

/// How many atoms a further `find` founds anew, or none where it finds an unfounded atom.
fn refounds(alloc: Global, scene: &mut FoundingScene) -> Result<Option<u64>, NoMemory>
    requires { IsOpen scene.old.normal scene.old.trail scene.old.founding }
    ensures { IsOpen scene.new.normal scene.new.trail scene.new.founding }
{
    let before = scene.founding.refounded();
    let all = scene.finds_the_same_anew(alloc)?;
    let after = scene.founding.refounded();
    Ok(if all { after.checked_sub(before) } else { None })
}

/// How many of 1,000 atoms are founded at first, and how many once the last one is false.
fn refounds_twice(
    alloc: Global,
    scene: &mut FoundingScene,
) -> Result<(Option<u64>, Option<u64>), NoMemory>
    requires { IsOpen scene.old.normal scene.old.trail scene.old.founding }
{
    assume_up_to(scene, 1000);
    let first = refounds(alloc, scene)?;
    scene.go_back(999);
    scene.assume(Lit(2001));
    Ok((first, refounds(alloc, scene)?))
}

/// Whether 1,000 atoms are founded once.
fn founds_once(alloc: Global) -> Result<bool, NoMemory> {
    let text = choices(alloc, 1000)?;
    let Some(normal) = normal_of(alloc, text.as_bytes()) else {
        return Ok(false);
    };
    let mut scene = FoundingScene::open(alloc, normal)?;
    Ok(refounds_twice(alloc, &mut scene)? == (Some(1000), Some(0)))
}

#[test]
fn atoms_are_founded_once(rt: HostRuntime) -> Result<(), Fail> {
    assert!(rt; founds_once(rt.alloc())?);
    Ok(())
}

/// Whether founding from nothing finds the same at each step of a walk that goes on and back.
fn walks(alloc: Global, scene: &mut FoundingScene, draws: &mut Draws) -> Result<bool, NoMemory>
    requires { IsOpen scene.old.normal scene.old.trail scene.old.founding }
    ensures { IsOpen scene.new.normal scene.new.trail scene.new.founding }
{
    for _ in 0..60u32 {
        if !scene.finds_the_same_anew(alloc)? {
            return Ok(false);
        }
        scene.go_back(draws.up_to(40));
        scene.assume(Lit(draws.up_to(121)));
    }
    Ok(true)
}

/// Whether it does for a program.
fn finds_the_same(alloc: Global, normal: Normal, draws: &mut Draws) -> Result<bool, NoMemory>
    requires { IsNormal normal }
{
    let mut scene = FoundingScene::open(alloc, normal)?;
    walks(alloc, &mut scene, draws)
}

/// Whether it does for one random program.
fn finds_the_same_for_one(alloc: Global, draws: &mut Draws) -> Result<bool, NoMemory> {
    let Some(program) = random_program(alloc, &RECIPE, draws)? else {
        return Ok(false);
    };
    match normalise(alloc, &program) {
        Err(_) => Ok(false),
        Ok(normal) => finds_the_same(alloc, normal, draws),
    }
}

#[test]
fn founding_that_is_kept_is_that_from_nothing(rt: HostRuntime) -> Result<(), Fail> {
    let mut draws = Draws::of(3);
    for number in 0..100u32 {
        assert!(rt;
            finds_the_same_for_one(rt.alloc(), &mut draws)?,
            "program {number}"
        );
    }
    Ok(())
}
