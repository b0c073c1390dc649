// Where a search ends for what it counted. One pigeon more than there are holes makes it count.
use crate::trials::asking::{Kind, MANY, answers, answers_in_slices, asks};
use crate::trials::clauses::clauses_of;
use crate::trials::listed::Manner;
use crate::trials::scene::{Posed, Scene};
use assumption_engine::Answer;
use clause_store::{Lit, Units};
use item_list::NoMemory;
use std::alloc::Global;
use std::test::Fail;

/// Four pigeons for three holes: pigeon p, from 0, is in hole h, from 1, where 3 p + h is true.
static PIGEONS: [&[u32]; 22] = [
    &[2, 4, 6],
    &[8, 10, 12],
    &[14, 16, 18],
    &[20, 22, 24],
    &[3, 9],
    &[3, 15],
    &[3, 21],
    &[9, 15],
    &[9, 21],
    &[15, 21],
    &[5, 11],
    &[5, 17],
    &[5, 23],
    &[11, 17],
    &[11, 23],
    &[17, 23],
    &[7, 13],
    &[7, 19],
    &[7, 25],
    &[13, 19],
    &[13, 25],
    &[19, 25],
];

/// An engine over the pigeons that may count so many clauses.
fn pigeons(alloc: Global, limit: u32) -> Result<Scene, NoMemory> {
    let base = clauses_of(alloc, &PIGEONS)?;
    let listed = Units::open();
    let posed = Posed {
        vars: 12,
        base: &base,
        listed: &listed,
        manner: Manner::AtTheEnd,
        limit,
    };
    Scene::open(alloc, posed)
}

/// How many clauses are counted until it is known that the pigeons don't fit.
fn needed(alloc: Global) -> Result<u32, NoMemory> {
    let mut scene = pigeons(alloc, MANY)?;
    let end = asks(alloc, &mut scene, &[], MANY)?;
    Ok(count_at_core(end, scene.used()))
}

/// What was counted where the answer is a core, and otherwise 0.
fn count_at_core(end: Kind, used: u32) -> u32 {
    match end {
        Kind::Core => used,
        _ => 0,
    }
}

/// Whether a search with this limit ends for having used it up.
fn is_spent(alloc: Global, limit: u32) -> Result<bool, NoMemory> {
    let mut scene = pigeons(alloc, limit)?;
    uses_up(alloc, &mut scene, limit)
}

/// Whether a search ends for having counted so many clauses.
fn uses_up(alloc: Global, scene: &mut Scene, limit: u32) -> Result<bool, NoMemory> {
    let end = asks(alloc, scene, &[], MANY)?;
    Ok(end == Kind::Spent && scene.used() == limit)
}

/// Whether each limit up to what is needed is used up, and one more than that isn't.
fn limits_are_exact(alloc: Global) -> Result<bool, NoMemory> {
    let count = needed(alloc)?;
    for limit in 1..count.saturating_add(1) {
        if !is_spent(alloc, limit)? {
            return Ok(false);
        }
    }
    let more = is_spent(alloc, count.saturating_add(1))?;
    Ok(count > 2 && !more)
}

#[test]
fn a_limit_is_used_up_exactly(rt: HostRuntime) -> Result<(), Fail> {
    assert!(rt; limits_are_exact(rt.alloc())?);
    Ok(())
}

/// Whether the search pauses after each slice of so many clauses until it answers.
fn slices_are_exact(alloc: Global, slice: u32) -> Result<bool, NoMemory> {
    let mut scene = pigeons(alloc, MANY)?;
    pauses_exactly(alloc, &mut scene, slice)
}

/// Whether it does so at least once, and slow unit propagation confirms what was counted.
fn pauses_exactly(alloc: Global, scene: &mut Scene, slice: u32) -> Result<bool, NoMemory> {
    let answered = answers_in_slices(alloc, scene, &[], slice)?;
    let confirmed = scene.is_confirmed(alloc)?;
    Ok(answered && confirmed && scene.used() > slice)
}

#[test]
fn slices_of_one_and_two_pause_exactly(rt: HostRuntime) -> Result<(), Fail> {
    assert!(rt; slices_are_exact(rt.alloc(), 1)?);
    assert!(rt; slices_are_exact(rt.alloc(), 2)?);
    Ok(())
}

/// Whether one clause is counted, and the answer is of that kind.
fn counts_one(alloc: Global, scene: &mut Scene, expected: Kind) -> Result<bool, NoMemory> {
    let before = scene.used();
    let kind = asks(alloc, scene, &[], 1)?;
    Ok(kind == expected && scene.used() == before.saturating_add(1))
}

/// Whether the slice that uses up the limit is answered as spent, and not as a pause.
fn a_limit_comes_before_a_pause(alloc: Global) -> Result<bool, NoMemory> {
    let mut scene = pigeons(alloc, 2)?;
    pauses_and_ends(alloc, &mut scene)
}

/// Whether a search pauses after one clause, and is spent after the next.
fn pauses_and_ends(alloc: Global, scene: &mut Scene) -> Result<bool, NoMemory> {
    let paused = counts_one(alloc, scene, Kind::Paused)?;
    let spent = counts_one(alloc, scene, Kind::Spent)?;
    Ok(paused && spent)
}

#[test]
fn a_slice_that_uses_up_the_limit_is_spent(rt: HostRuntime) -> Result<(), Fail> {
    assert!(rt; a_limit_comes_before_a_pause(rt.alloc())?);
    Ok(())
}

/// Exactly one of two variables is true.
static SOME: [&[u32]; 1] = [&[2, 4]];

static NOT_BOTH: [&[u32]; 1] = [&[3, 5]];

/// An engine over two variables, one of which is true, where each check of a model is spent.
fn spending(alloc: Global, limit: u32) -> Result<Scene, NoMemory> {
    let base = clauses_of(alloc, &SOME)?;
    let listed = clauses_of(alloc, &NOT_BOTH)?;
    let posed = Posed {
        vars: 2,
        base: &base,
        listed: &listed,
        manner: Manner::Spends,
        limit,
    };
    Scene::open(alloc, posed)
}

/// Whether a spent check is handed on with its set and as many clauses as the limit.
fn is_handed_on(alloc: Global, limit: u32) -> Result<bool, NoMemory> {
    let mut scene = spending(alloc, limit)?;
    let answer = scene.ask(alloc, &[Lit(4)], MANY)?;
    Ok(is_that_check(&answer, limit))
}

/// Whether an answer has the set of one atom, and so many clauses.
fn is_that_check(answer: &Answer, count: u32) -> bool {
    match answer {
        Answer::SpentInside { set, units } => {
            set.as_slice() == [true].as_slice() && units.len() == count as usize
        }
        _ => false,
    }
}

/// Whether there is a core where no assignment comes to be checked.
fn no_model_is_checked(alloc: Global) -> Result<bool, NoMemory> {
    let mut scene = spending(alloc, 3)?;
    answers(alloc, &mut scene, &[Lit(3), Lit(5)])
}

#[test]
fn a_spent_check_is_handed_on(rt: HostRuntime) -> Result<(), Fail> {
    assert!(rt; is_handed_on(rt.alloc(), 1)?);
    assert!(rt; is_handed_on(rt.alloc(), 7)?);
    assert!(rt; no_model_is_checked(rt.alloc())?);
    Ok(())
}
