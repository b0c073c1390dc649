// Random clauses, divided between the store and the theory, with random questions.
use crate::trials::asking::{MANY, answers, answers_in_slices};
use crate::trials::clauses::{Draws, random_clauses, random_lits};
use crate::trials::listed::Manner;
use crate::trials::scene::{Posed, Scene};
use clause_store::Units;
use item_list::NoMemory;
use std::alloc::Global;
use std::test::Fail;

/// So many engines are asked in each manner of the theory.
const ENGINES: u32 = 40;

/// They count as many clauses at least, or the run shows little.
const ENOUGH: u32 = 10;

/// How a question is put.
#[derive(Debug, Drop, Clone, Copy, PartialEq, Eq)]
enum Way {
    /// At once.
    Whole,
    /// In slices of so many clauses.
    Slices(u32),
    /// Some literals are preferred before.
    Preferring,
    /// A clause of the theory is added before, and a variable is made a selector.
    Growing,
}

/// Puts so many lists of 3 literals last.
fn put_triples(
    alloc: Global,
    vars: u8,
    count: u32,
    draws: &mut Draws,
    clauses: &mut Units,
) -> Result<(), NoMemory> {
    for _ in 0..count {
        let lits = random_lits(alloc, vars, 3, draws)?;
        clauses.push(alloc, lits)?;
    }
    Ok(())
}

/// An engine with 3 clauses for each of its variables, and two of 1 to 4 literals.
fn scene_of(alloc: Global, vars: u8, manner: Manner, draws: &mut Draws) -> Result<Scene, NoMemory> {
    let count = u32::from(vars) * 3;
    let own = draws.below(count + 1);
    let mut base = random_clauses(alloc, vars, 1, draws)?;
    put_triples(alloc, vars, own, draws, &mut base)?;
    let mut listed = random_clauses(alloc, vars, 1, draws)?;
    put_triples(alloc, vars, count.saturating_sub(own), draws, &mut listed)?;
    let posed = Posed {
        vars,
        base: &base,
        listed: &listed,
        manner,
        limit: MANY,
    };
    Scene::open(alloc, posed)
}

/// Prefers two literals.
fn prefer(alloc: Global, scene: &mut Scene, vars: u8, draws: &mut Draws) -> Result<(), NoMemory> {
    let lits = random_lits(alloc, vars, 2, draws)?;
    scene.prefer(lits.as_slice());
    Ok(())
}

/// Adds a clause of the theory, and makes a variable a selector of two literals, where there are
/// such.
fn grow(alloc: Global, scene: &mut Scene, vars: u8, draws: &mut Draws) -> Result<(), NoMemory> {
    let lits = random_lits(alloc, vars, 2, draws)?;
    scene.add(alloc, draws.below(32) as usize);
    scene.define(alloc, draws.below(32) as u8, lits.as_slice())?;
    Ok(())
}

/// Does what comes before a question.
fn prepare(
    alloc: Global,
    scene: &mut Scene,
    vars: u8,
    way: Way,
    draws: &mut Draws,
) -> Result<(), NoMemory> {
    match way {
        Way::Preferring => prefer(alloc, scene, vars, draws),
        Way::Growing => grow(alloc, scene, vars, draws),
        _ => Ok(()),
    }
}

/// Whether a question is answered rightly.
fn is_answered(
    alloc: Global,
    scene: &mut Scene,
    vars: u8,
    way: Way,
    draws: &mut Draws,
) -> Result<bool, NoMemory> {
    prepare(alloc, scene, vars, way, draws)?;
    let size = draws.below(3);
    let assumed = random_lits(alloc, vars, size, draws)?;
    match way {
        Way::Slices(slice) => answers_in_slices(alloc, scene, assumed.as_slice(), slice),
        _ => answers(alloc, scene, assumed.as_slice()),
    }
}

/// Whether six questions are answered rightly.
fn are_answered(
    alloc: Global,
    scene: &mut Scene,
    vars: u8,
    way: Way,
    draws: &mut Draws,
) -> Result<bool, NoMemory> {
    for _ in 0..6 {
        if !is_answered(alloc, scene, vars, way, draws)? {
            return Ok(false);
        }
    }
    Ok(true)
}

/// How many clauses six questions to one engine count. None is a wrong answer, or a clause that is
/// counted and not confirmed.
fn round(
    alloc: Global,
    manner: Manner,
    way: Way,
    draws: &mut Draws,
) -> Result<Option<u32>, NoMemory> {
    let vars = (6 + draws.below(4)) as u8;
    let mut scene = scene_of(alloc, vars, manner, draws)?;
    let answered = are_answered(alloc, &mut scene, vars, way, draws)?;
    let confirmed = scene.is_confirmed(alloc)?;
    Ok((answered && confirmed).then_some(scene.used()))
}

/// Whether random sets of clauses are answered rightly, and enough clauses are counted.
fn rounds(alloc: Global, manner: Manner, way: Way) -> Result<bool, NoMemory> {
    let mut draws = Draws::of(1);
    let mut counted = 0u32;
    for _ in 0..ENGINES {
        let Some(used) = round(alloc, manner, way, &mut draws)? else {
            return Ok(false);
        };
        counted = counted.saturating_add(used);
    }
    Ok(counted >= ENOUGH)
}

static MANNERS: [Manner; 5] = [
    Manner::AtTheEnd,
    Manner::Every(1),
    Manner::Every(2),
    Manner::Every(5),
    Manner::Spends,
];

/// Whether they are with a theory of each manner.
fn all_manners(alloc: Global, way: Way) -> Result<bool, NoMemory> {
    for manner in &MANNERS {
        if !rounds(alloc, *manner, way)? {
            return Ok(false);
        }
    }
    Ok(true)
}

#[test]
fn random_clauses_get_right_answers(rt: HostRuntime) -> Result<(), Fail> {
    assert!(rt; all_manners(rt.alloc(), Way::Whole)?);
    Ok(())
}

#[test]
fn slices_of_one_clause_get_right_answers(rt: HostRuntime) -> Result<(), Fail> {
    assert!(rt; all_manners(rt.alloc(), Way::Slices(1))?);
    Ok(())
}

#[test]
fn slices_of_two_clauses_get_right_answers(rt: HostRuntime) -> Result<(), Fail> {
    assert!(rt; all_manners(rt.alloc(), Way::Slices(2))?);
    Ok(())
}

#[test]
fn what_is_preferred_changes_no_answer(rt: HostRuntime) -> Result<(), Fail> {
    assert!(rt; all_manners(rt.alloc(), Way::Preferring)?);
    Ok(())
}

#[test]
fn what_grows_between_questions_is_kept_to(rt: HostRuntime) -> Result<(), Fail> {
    assert!(rt; all_manners(rt.alloc(), Way::Growing)?);
    Ok(())
}
