// Testers of random programs that were opened in another way answer as one that is opened afresh.
ghost use Rattle.normal_program.specs.Limit.{IsNormal};

use crate::trials::comparing::{Likeness, Tally, compare_all};
use crate::trials::pairs::TwoTesters;
use ground_program::{Kind, Program};
use item_list::NoMemory;
use normal_program::Normal;
use rule_normaliser::normalise;
use std::alloc::Global;
use std::test::Fail;
use trial_inputs::{Draws, Recipe, random_program};

static PLAIN: Recipe = Recipe {
    atoms: 8,
    rules: 11,
    kinds: &[
        Kind::Basic,
        Kind::Basic,
        Kind::Constraint,
        Kind::Choice,
        Kind::Weight,
    ],
    names: 6,
};

static DISJUNCTIVE: Recipe = Recipe {
    atoms: 7,
    rules: 12,
    kinds: &[
        Kind::Disjunctive,
        Kind::Basic,
        Kind::Disjunctive,
        Kind::Choice,
        Kind::Disjunctive,
    ],
    names: 6,
};

/// What a second tester does before and while it is asked.
#[derive(Drop, Clone, Copy)]
enum Way {
    /// It is opened over a completed store.
    Over,
    /// It is opened after one that was never asked.
    AfterNew,
    /// It is opened after one that was asked for each literal.
    AfterAsked,
    /// It is told before each question what to decide first.
    Preferring,
}

/// Compares testers of a normal form.
fn compare(
    alloc: Global,
    program: &Program,
    normal: &Normal,
    way: Way,
    tally: &mut Tally,
) -> Result<(), NoMemory>
    requires { IsNormal normal.now }
{
    let mut two = TwoTesters::open(alloc, normal)?;
    compare_by(alloc, program, &mut two, way, tally)
}

fn compare_by(
    alloc: Global,
    program: &Program,
    two: &mut TwoTesters,
    way: Way,
    tally: &mut Tally,
) -> Result<(), NoMemory> {
    match way {
        Way::Over => compare_all(alloc, program, two, Likeness::Same, tally),
        Way::AfterNew => {
            two.follow(alloc)?;
            compare_all(alloc, program, two, Likeness::Same, tally)
        }
        Way::AfterAsked => {
            compare_all(alloc, program, two, Likeness::Same, tally)?;
            two.follow(alloc)?;
            compare_all(alloc, program, two, Likeness::Verdict, tally)
        }
        Way::Preferring => compare_all(alloc, program, two, Likeness::Preferring, tally),
    }
}

/// Compares testers of a random program.
fn compare_random(
    alloc: Global,
    recipe: &Recipe,
    draws: &mut Draws,
    way: Way,
    tally: &mut Tally,
) -> Result<(), NoMemory> {
    let Some(program) = random_program(alloc, recipe, draws)? else {
        tally.fail();
        return Ok(());
    };
    match normalise(alloc, &program) {
        Err(_) => {
            tally.fail();
            Ok(())
        }
        Ok(normal) => compare(alloc, &program, &normal, way, tally),
    }
}

/// Compares testers of so many random programs.
fn tally_of(alloc: Global, recipe: &Recipe, programs: u32, way: Way) -> Result<Tally, NoMemory> {
    let mut draws = Draws::of(3);
    let mut tally = Tally::none();
    for _ in 0..programs {
        compare_random(alloc, recipe, &mut draws, way, &mut tally)?;
    }
    Ok(tally)
}

/// Whether testers of random programs answer alike, and there were sets and cores enough.
fn agree(alloc: Global, way: Way) -> Result<bool, NoMemory> {
    let plain = tally_of(alloc, &PLAIN, 12, way)?;
    let mixed = tally_of(alloc, &DISJUNCTIVE, 8, way)?;
    Ok(
        plain.apart == 0
            && plain.sets > 100
            && plain.cores > 50
            && mixed.apart == 0
            && mixed.sets > 100
            && mixed.cores > 50,
    )
}

#[test]
fn a_tester_over_a_completed_store_answers_the_same(rt: HostRuntime) -> Result<(), Fail> {
    assert!(rt; agree(rt.alloc(), Way::Over)?);
    Ok(())
}

#[test]
fn a_tester_after_a_new_one_answers_the_same(rt: HostRuntime) -> Result<(), Fail> {
    assert!(rt; agree(rt.alloc(), Way::AfterNew)?);
    Ok(())
}

#[test]
fn a_tester_after_one_that_was_asked_agrees(rt: HostRuntime) -> Result<(), Fail> {
    assert!(rt; agree(rt.alloc(), Way::AfterAsked)?);
    Ok(())
}

#[test]
fn what_is_preferred_changes_no_verdict(rt: HostRuntime) -> Result<(), Fail> {
    assert!(rt; agree(rt.alloc(), Way::Preferring)?);
    Ok(())
}
