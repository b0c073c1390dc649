// What a tester decides first in a program with four answer sets: what it is told, or what another
// tester decided last.
ghost use Rattle.normal_program.specs.Limit.{IsNormal};
ghost use Rattle.normal_program.specs.Normal.{IsNormalFormOf};
ghost use Rattle.trial_coherence.specs.Ready.{IsReady};

use crate::trials::scene::{Scene, completed_of};
use crate::trials::worked_programs::TWO_OF_FOUR;
use clause_store::Clause;
use coherence_test::{Asked, Tested};
use ground_program::Program;
use item_list::NoMemory;
use normal_program::Normal;
use rule_normaliser::normalise;
use std::alloc::Global;
use std::test::Fail;
use trial_inputs::{clause_of, program_of};

/// Literals that are preferred, and the answer set that is found then.
struct Row {
    preferred: &'static [u32],
    set: &'static [bool],
}

static ROWS: [Row; 4] = [
    Row {
        preferred: &[4, 8],
        set: &[false, false, true, false, true, false],
    },
    Row {
        preferred: &[4, 10],
        set: &[false, false, true, false, false, true],
    },
    Row {
        preferred: &[8, 6],
        set: &[false, false, false, true, true, false],
    },
    Row {
        preferred: &[10, 6],
        set: &[false, false, false, true, false, true],
    },
];

/// Literals that are sought, and the answer sets that are found one after the other.
struct SoughtRow {
    sought: &'static [u32],
    first: &'static [bool],
    second: &'static [bool],
}

static SOUGHT: [SoughtRow; 3] = [
    SoughtRow {
        sought: &[4, 10, 6, 8],
        first: &[false, false, true, false, false, true],
        second: &[false, false, false, true, true, false],
    },
    SoughtRow {
        sought: &[6, 8, 4],
        first: &[false, false, false, true, true, false],
        second: &[false, false, true, false, true, false],
    },
    SoughtRow {
        sought: &[10],
        first: &[false, false, false, true, false, true],
        second: &[false, false, false, true, false, true],
    },
];

/// Whether a tester that seeks literals finds the sets of a row, and then one after it, which
/// seeks but what that has just found, the first of them.
fn are_sought(alloc: Global, scene: &mut Scene, row: &SoughtRow) -> Result<bool, NoMemory>
    requires { IsReady scene.old.program.now scene.old.normal.now scene.old.tester }
{
    let lits = clause_of(alloc, row.sought)?;
    scene.tester.seek(alloc, lits.as_slice(), None)?;
    if !finds(alloc, scene, row.first)? || !finds(alloc, scene, row.second)? {
        return Ok(false);
    }
    is_sought_after(alloc, scene, &lits, row.first)
}

/// Whether a tester that seeks literals beside what another tester found last finds this set.
fn is_sought_after(
    alloc: Global,
    scene: &Scene,
    lits: &Clause,
    set: &[bool],
) -> Result<bool, NoMemory>
    requires { IsReady scene.now.program.now scene.now.normal.now scene.now.tester }
{
    let completed = completed_of(alloc, scene.normal)?;
    let mut after = scene.followed(alloc, &completed)?;
    after
        .tester
        .seek(alloc, lits.as_slice(), Some(&scene.tester))?;
    finds(alloc, &mut after, set)
}

/// Whether a tester that is told what to decide first finds this set, and one after it too.
fn are_found(alloc: Global, scene: &mut Scene, row: &Row) -> Result<bool, NoMemory>
    requires { IsReady scene.old.program.now scene.old.normal.now scene.old.tester }
{
    let lits = clause_of(alloc, row.preferred)?;
    scene.tester.prefer(lits.as_slice());
    if !finds(alloc, scene, row.set)? {
        return Ok(false);
    }
    is_found_after(alloc, scene, row)
}

/// Whether a tester after another finds the set of a row.
fn is_found_after(alloc: Global, scene: &Scene, row: &Row) -> Result<bool, NoMemory>
    requires { IsReady scene.now.program.now scene.now.normal.now scene.now.tester }
{
    let completed = completed_of(alloc, scene.normal)?;
    let mut after = scene.followed(alloc, &completed)?;
    finds(alloc, &mut after, row.set)
}

/// Whether a tester that is asked for any answer set finds this one.
fn finds(alloc: Global, scene: &mut Scene, set: &[bool]) -> Result<bool, NoMemory>
    requires { IsReady scene.old.program.now scene.old.normal.now scene.old.tester }
    ensures { IsReady scene.new.program.now scene.new.normal.now scene.new.tester }
{
    let asked = Asked {
        assume: Clause::open(),
        any: None,
    };
    let tested = scene.settle(alloc, &asked)?;
    Ok(is_set(&tested, set))
}

/// Whether an answer is this set.
fn is_set(tested: &Option<Tested>, set: &[bool]) -> bool {
    match tested {
        Some(Tested::Found(found)) => found.as_slice() == set,
        _ => false,
    }
}

fn are_found_for(
    alloc: Global,
    program: &Program,
    normal: &Normal,
    row: &Row,
) -> Result<bool, NoMemory>
    requires normal { IsNormal normal.now }
    requires form { IsNormalFormOf normal.now program.now }
{
    match Scene::open(alloc, program, normal)? {
        None => Ok(false),
        Some(mut scene) => are_found(alloc, &mut scene, row),
    }
}

fn is_shown(alloc: Global, row: &Row) -> Result<bool, NoMemory> {
    let Some(program) = program_of(alloc, TWO_OF_FOUR) else {
        return Ok(false);
    };
    match normalise(alloc, &program) {
        Err(_) => Ok(false),
        Ok(normal) => are_found_for(alloc, &program, &normal, row),
    }
}

fn are_sought_for(
    alloc: Global,
    program: &Program,
    normal: &Normal,
    row: &SoughtRow,
) -> Result<bool, NoMemory>
    requires normal { IsNormal normal.now }
    requires form { IsNormalFormOf normal.now program.now }
{
    match Scene::open(alloc, program, normal)? {
        None => Ok(false),
        Some(mut scene) => are_sought(alloc, &mut scene, row),
    }
}

fn is_sought_shown(alloc: Global, text: &[u8], row: &SoughtRow) -> Result<bool, NoMemory> {
    let Some(program) = program_of(alloc, text) else {
        return Ok(false);
    };
    match normalise(alloc, &program) {
        Err(_) => Ok(false),
        Ok(normal) => are_sought_for(alloc, &program, &normal, row),
    }
}

#[test]
fn what_is_preferred_is_decided_first_and_handed_down(rt: HostRuntime) -> Result<(), Fail> {
    for (at, row) in ROWS.iter().enumerate() {
        assert!(rt; is_shown(rt.alloc(), row)?, "row {at}");
    }
    Ok(())
}

#[test]
fn what_is_sought_is_decided_first_until_it_is_found(rt: HostRuntime) -> Result<(), Fail> {
    for (at, row) in SOUGHT.iter().enumerate() {
        assert!(rt; is_sought_shown(rt.alloc(), TWO_OF_FOUR, row)?, "row {at}");
    }
    Ok(())
}
