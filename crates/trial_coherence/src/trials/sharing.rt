// What testers hand on of the clauses that they counted: of known ones about worked programs, and
// of those that the budgets have about random programs.
ghost use Rattle.ground_program.specs.Program.{IsProgram};
ghost use Rattle.normal_program.specs.Limit.{IsNormal};
ghost use Rattle.normal_program.specs.Normal.{IsNormalFormOf};
ghost use Rattle.trial_coherence.specs.Ready.{IsReady};

use crate::trials::constrained_programs::constrained_program;
use crate::trials::questions::ask_all;
use crate::trials::scene::Scene;
use crate::trials::tallies::{Kinds, Stops};
use crate::trials::worked_programs::{NO_FOUR, NO_ONE, NO_THREE, NO_TWO, NOT_ALONE};
use clause_store::Short;
use coherence_test::Asked;
use ground_program::Program;
use item_list::NoMemory;
use normal_program::Normal;
use rule_normaliser::normalise;
use std::alloc::Global;
use std::test::Fail;
use trial_inputs::{Draws, clause_of, program_of};

/// A question about a program, how many clauses it makes a tester count, and those that are handed
/// on then, the last one first.
struct Row {
    shows: &'static str,
    text: &'static [u8],
    assumed: &'static [u32],
    any: Option<&'static [u32]>,
    counted: usize,
    handed_on: &'static [[u32; 3]],
}

static ROWS: [Row; 7] = [
    Row {
        shows: "a clause of one literal",
        text: NO_ONE,
        assumed: &[4],
        any: None,
        counted: 1,
        handed_on: &[[5, 0, 0]],
    },
    Row {
        shows: "a clause of two literals, whatever their order was",
        text: NO_TWO,
        assumed: &[6, 4],
        any: None,
        counted: 1,
        handed_on: &[[5, 7, 0]],
    },
    Row {
        shows: "a clause of three literals",
        text: NO_THREE,
        assumed: &[6, 8, 4],
        any: None,
        counted: 1,
        handed_on: &[[5, 7, 9]],
    },
    Row {
        shows: "a clause of four literals stays",
        text: NO_FOUR,
        assumed: &[4, 6, 8, 10],
        any: None,
        counted: 1,
        handed_on: &[],
    },
    // The disjunction of 2 and 3 makes 2 true.
    Row {
        shows: "a clause with a selector stays",
        text: NOT_ALONE,
        assumed: &[],
        any: Some(&[4, 6]),
        counted: 1,
        handed_on: &[],
    },
    Row {
        shows: "a disjunction may teach a clause without its selector",
        text: NO_ONE,
        assumed: &[],
        any: Some(&[4]),
        counted: 1,
        handed_on: &[[5, 0, 0]],
    },
    Row {
        shows: "nothing is counted",
        text: NO_ONE,
        assumed: &[5],
        any: None,
        counted: 0,
        handed_on: &[],
    },
];

/// Whether a tester counts and hands on what a row says.
fn is_as_told(alloc: Global, scene: &mut Scene, row: &Row) -> Result<bool, NoMemory>
    requires { IsReady scene.old.program.now scene.old.normal.now scene.old.tester }
{
    let asked = asked_by(alloc, row)?;
    let answered = scene.answers(alloc, &asked)?;
    let counts = scene.counted.len() == row.counted;
    Ok(answered && counts && gives_just(scene, row.handed_on))
}

/// What a row asks.
fn asked_by(alloc: Global, row: &Row) -> Result<Asked, NoMemory> {
    let assume = clause_of(alloc, row.assumed)?;
    let any = match row.any {
        None => None,
        Some(codes) => Some(clause_of(alloc, codes)?),
    };
    Ok(Asked { assume, any })
}

/// Whether a tester hands on just these clauses.
fn gives_just(scene: &mut Scene, shorts: &[[u32; 3]]) -> bool {
    for lits in shorts {
        if scene.tester.take_shareable() != Some(Short { lits: *lits }) {
            return false;
        }
    }
    scene.tester.take_shareable().is_none()
}

fn is_as_told_for(
    alloc: Global,
    program: &Program,
    normal: &Normal,
    row: &Row,
) -> Result<bool, NoMemory>
    requires normal { IsNormal normal.now }
    requires form { IsNormalFormOf normal.now program.now }
{
    match Scene::open(alloc, program, normal)? {
        None => Ok(false),
        Some(mut scene) => is_as_told(alloc, &mut scene, row),
    }
}

fn is_shown(alloc: Global, row: &Row) -> Result<bool, NoMemory> {
    let Some(program) = program_of(alloc, row.text) else {
        return Ok(false);
    };
    match normalise(alloc, &program) {
        Err(_) => Ok(false),
        Ok(normal) => is_as_told_for(alloc, &program, &normal, row),
    }
}

/// What was counted about programs, and how tests stopped.
#[derive(Debug, Drop, Clone, Copy)]
struct Counts {
    kinds: Kinds,
    stops: Stops,
}

/// Asks all questions of a tester. What it counted. None is a wrong answer, or a clause that is
/// handed on and mustn't be, or isn't and must be.
fn counts_asked(
    alloc: Global,
    scene: &mut Scene,
    draws: &mut Draws,
) -> Result<Option<Counts>, NoMemory>
    requires { IsReady scene.old.program.now scene.old.normal.now scene.old.tester }
{
    let shown = ask_all(alloc, scene, draws)?;
    let counts = Counts {
        kinds: scene.kinds,
        stops: scene.stops,
    };
    Ok((shown.right && shown.handed_on).then_some(counts))
}

fn counts_for(
    alloc: Global,
    program: &Program,
    normal: &Normal,
    draws: &mut Draws,
) -> Result<Option<Counts>, NoMemory>
    requires normal { IsNormal normal.now }
    requires form { IsNormalFormOf normal.now program.now }
{
    match Scene::open(alloc, program, normal)? {
        None => Ok(None),
        Some(mut scene) => counts_asked(alloc, &mut scene, draws),
    }
}

fn counts_about(
    alloc: Global,
    program: &Program,
    draws: &mut Draws,
) -> Result<Option<Counts>, NoMemory>
    requires { IsProgram program.now }
{
    match normalise(alloc, program) {
        Err(_) => Ok(None),
        Ok(normal) => counts_for(alloc, program, &normal, draws),
    }
}

fn counts_about_one(alloc: Global, draws: &mut Draws) -> Result<Option<Counts>, NoMemory> {
    match constrained_program(alloc, draws)? {
        None => Ok(None),
        Some(program) => counts_about(alloc, &program, draws),
    }
}

/// The same about so many random programs.
fn counts_about_all(alloc: Global, programs: u32) -> Result<Option<Counts>, NoMemory> {
    let mut draws = Draws::of(5);
    let mut all = Counts {
        kinds: Kinds::none(),
        stops: Stops::none(),
    };
    for _ in 0..programs {
        let Some(one) = counts_about_one(alloc, &mut draws)? else {
            return Ok(None);
        };
        all.kinds.add(one.kinds);
        all.stops.add(one.stops);
    }
    Ok(Some(all))
}

#[test]
fn short_clauses_without_selectors_are_handed_on(rt: HostRuntime) -> Result<(), Fail> {
    for row in &ROWS {
        assert!(rt; is_shown(rt.alloc(), row)?, "{}", row.shows);
    }
    Ok(())
}

/// Whether all was right, and there were clauses of each kind, and stops with several budgets and
/// with both slices.
fn have_each(counts: &Option<Counts>) -> bool {
    match counts {
        None => false,
        Some(counts) => counts.kinds.has_each() && counts.stops.are_of_each_kind(),
    }
}

#[test]
fn what_budgets_counted_is_handed_on_where_it_may_be(rt: HostRuntime) -> Result<(), Fail> {
    let counts = counts_about_all(rt.alloc(), 40)?;
    assert!(rt; have_each(&counts), "{counts:?}");
    Ok(())
}
