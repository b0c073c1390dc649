// Questions whose answers are compared with what is known or with what all assignments say.
use crate::trials::clauses::lits_of;
use crate::trials::scene::Scene;
use assumption_engine::Answer;
use clause_store::Lit;
use item_list::NoMemory;
use std::alloc::Global;

/// More than any test counts.
pub const MANY: u32 = 10_000;

/// Whether the answer is right.
pub fn answers(alloc: Global, scene: &mut Scene, assumed: &[Lit]) -> Result<bool, NoMemory> {
    let answer = scene.ask(alloc, assumed, MANY)?;
    Ok(scene.is_right(assumed, &answer))
}

/// Whether the answer that comes in slices of so many clauses is right, each pause comes after as
/// many, and the answer before.
pub fn answers_in_slices(
    alloc: Global,
    scene: &mut Scene,
    assumed: &[Lit],
    slice: u32,
) -> Result<bool, NoMemory> {
    for _ in 0..MANY {
        match slice_of(alloc, scene, assumed, slice)? {
            Part::Paused => {}
            Part::Right => return Ok(true),
            Part::Wrong => return Ok(false),
        }
    }
    Ok(false)
}

/// What a slice shows.
#[derive(Debug, Drop, Clone, Copy, PartialEq, Eq)]
enum Part {
    /// It paused where it must.
    Paused,
    /// Its answer is right.
    Right,
    /// It isn't.
    Wrong,
}

/// Asks for one slice.
fn slice_of(
    alloc: Global,
    scene: &mut Scene,
    assumed: &[Lit],
    slice: u32,
) -> Result<Part, NoMemory> {
    let before = scene.used();
    let answer = scene.ask(alloc, assumed, slice)?;
    Ok(judged(scene, assumed, &answer, before.saturating_add(slice)))
}

/// Judges an answer where a pause must come at `stop` counted clauses.
fn judged(scene: &Scene, assumed: &[Lit], answer: &Answer, stop: u32) -> Part {
    if let Answer::Paused = answer {
        return if scene.used() == stop {
            Part::Paused
        } else {
            Part::Wrong
        };
    }
    if scene.used() < stop && scene.is_right(assumed, answer) {
        Part::Right
    } else {
        Part::Wrong
    }
}

/// Which answer it is.
#[derive(Debug, Drop, Clone, Copy, PartialEq, Eq)]
pub enum Kind {
    /// A model.
    Model,
    /// A core.
    Core,
    /// The limit is used up.
    Spent,
    /// A check is spent.
    SpentInside,
    /// A slice is used up.
    Paused,
    /// Memory ran out.
    NoMemory,
}

/// Which answer comes.
pub fn asks(
    alloc: Global,
    scene: &mut Scene,
    assumed: &[Lit],
    slice: u32,
) -> Result<Kind, NoMemory> {
    let answer = scene.ask(alloc, assumed, slice)?;
    Ok(kind_of(&answer))
}

/// Which answer it is.
fn kind_of(answer: &Answer) -> Kind {
    match answer {
        Answer::Model => Kind::Model,
        Answer::Core(_) => Kind::Core,
        Answer::Spent => Kind::Spent,
        Answer::SpentInside { .. } => Kind::SpentInside,
        Answer::Paused => Kind::Paused,
        Answer::NoMemory => Kind::NoMemory,
    }
}

/// Whether the answer is a core of these literals, in any order, where those are assumed.
pub fn has_core(
    alloc: Global,
    scene: &mut Scene,
    assumed: &[u32],
    codes: &[u32],
) -> Result<bool, NoMemory> {
    let lits = lits_of(alloc, assumed)?;
    let answer = scene.ask(alloc, lits.as_slice(), MANY)?;
    Ok(is_core_of(&answer, codes))
}

/// Whether an answer is a core of these literals, in any order.
fn is_core_of(answer: &Answer, codes: &[u32]) -> bool {
    match answer {
        Answer::Core(core) => core.len() == codes.len() && are_of(core.as_slice(), codes),
        _ => false,
    }
}

/// Whether each literal has one of the codes.
fn are_of(lits: &[Lit], codes: &[u32]) -> bool {
    for lit in lits {
        if !codes.contains(&lit.0) {
            return false;
        }
    }
    true
}
