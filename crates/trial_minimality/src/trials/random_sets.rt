// Random programs with rules of all kinds, and all sets of their atoms, with ample and with small
// budgets.
ghost use Rattle.std.specs.Prelude.{◌≤◌};
ghost use Rattle.trial_minimality.specs.Ready.{IsReady};

use crate::trials::scene::{Scene, Shown};
use ground_program::Kind;
use item_list::NoMemory;
use std::alloc::Global;
use std::test::Fail;
use trial_inputs::{Draws, Recipe, random_program};

static RECIPE: Recipe = Recipe {
    atoms: 7,
    rules: 10,
    kinds: &[
        Kind::Disjunctive,
        Kind::Basic,
        Kind::Disjunctive,
        Kind::Constraint,
        Kind::Disjunctive,
        Kind::Choice,
        Kind::Basic,
        Kind::Weight,
    ],
    names: 0,
};

/// How often something was shown.
#[derive(Drop, Clone, Copy)]
struct Counts {
    right: u32,
    spent: u32,
    wrong: u32,
}

impl Counts {
    fn add(&mut self, shown: Shown) {
        match shown {
            Shown::NotAsked => {}
            Shown::Right => self.right = self.right.saturating_add(1),
            Shown::Spent => self.spent = self.spent.saturating_add(1),
            Shown::Wrong => self.wrong = self.wrong.saturating_add(1),
        }
    }
}

/// Counts what is shown of all sets of a program's atoms.
fn count_sets(alloc: Global, scene: &Scene, limit: u32, counts: &mut Counts) -> Result<(), NoMemory>
    requires ready { IsReady scene.now.program scene.now.normal }
    requires some { 1 ≤ limit }
{
    for bits in 0..128u32 {
        if bits >> scene.normal.atoms == 0 {
            counts.add(scene.shows(alloc, bits, limit)?);
        }
    }
    Ok(())
}

/// Counts what is shown of one random program.
fn count_one(
    alloc: Global,
    limit: u32,
    draws: &mut Draws,
    counts: &mut Counts,
) -> Result<(), NoMemory>
    requires { 1 ≤ limit }
{
    let Some(program) = random_program(alloc, &RECIPE, draws)? else {
        return Ok(());
    };
    match Scene::of(alloc, program) {
        None => Ok(()),
        Some(scene) => count_sets(alloc, &scene, limit, counts),
    }
}

/// Counts what is shown of so many random programs.
fn count_all(alloc: Global, programs: u32, limit: u32) -> Result<Counts, NoMemory>
    requires { 1 ≤ limit }
{
    let mut draws = Draws::of(3);
    let mut counts = Counts {
        right: 0,
        spent: 0,
        wrong: 0,
    };
    for _ in 0..programs {
        count_one(alloc, limit, &mut draws, &mut counts)?;
    }
    Ok(counts)
}

#[test]
fn answers_are_those_of_the_definition(rt: HostRuntime) -> Result<(), Fail> {
    let counts = count_all(rt.alloc(), 100, 1000)?;
    assert!(rt; counts.wrong == 0 && counts.spent == 0 && counts.right > 500);
    Ok(())
}

#[test]
fn a_small_budget_is_spent_on_units(rt: HostRuntime) -> Result<(), Fail> {
    let counts = count_all(rt.alloc(), 100, 1)?;
    assert!(rt;
        counts.wrong == 0 && counts.spent > 5,
        "{} {}",
        counts.wrong,
        counts.spent
    );
    Ok(())
}
