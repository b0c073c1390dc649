// Calls that need memory have it, and where one once lacked it all answer so from then on.
use crate::trials::asking::{Kind, MANY, asks};
use crate::trials::clauses::{clauses_of, lits_of};
use crate::trials::listed::Manner;
use crate::trials::scene::{Posed, Scene};
use clause_store::Lit;
use item_list::NoMemory;
use std::alloc::Global;
use std::test::Fail;

static OWN: [&[u32]; 3] = [&[2, 4], &[2, 5, 6], &[2, 5, 7]];

static LISTED: [&[u32]; 2] = [&[3, 8], &[3, 9]];

/// An engine with clauses in the store and in the theory, which counts some.
fn scene_of(alloc: Global) -> Result<Scene, NoMemory> {
    let base = clauses_of(alloc, &OWN)?;
    let listed = clauses_of(alloc, &LISTED)?;
    let posed = Posed {
        vars: 5,
        base: &base,
        listed: &listed,
        manner: Manner::Every(2),
        limit: MANY,
    };
    Scene::open(alloc, posed)
}

/// Which of a question, an added clause and a selector had memory.
fn first_calls(alloc: Global, scene: &mut Scene) -> Result<[bool; 3], NoMemory> {
    let any = lits_of(alloc, &[4, 8])?;
    let first = is_answered(alloc, scene, &[Lit(4)])?;
    let added = scene.add(alloc, 0);
    let defined = scene.define(alloc, 5, any.as_slice())?;
    Ok([first, added, defined])
}

/// Which of five calls in turn had memory.
fn calls(alloc: Global, scene: &mut Scene) -> Result<[bool; 5], NoMemory> {
    let [first, added, defined] = first_calls(alloc, scene)?;
    let second = is_answered(alloc, scene, &[Lit(10)])?;
    let third = is_answered(alloc, scene, &[])?;
    Ok([first, added, defined, second, third])
}

/// Whether a question is answered by more than want of memory.
fn is_answered(alloc: Global, scene: &mut Scene, assumed: &[Lit]) -> Result<bool, NoMemory> {
    let kind = asks(alloc, scene, assumed, MANY)?;
    Ok(!matches!(kind, Kind::NoMemory))
}

/// Whether no call had memory after one that hadn't.
fn stays_without(had: &[bool]) -> bool {
    let mut lacked = false;
    for one in had {
        if lacked && *one {
            return false;
        }
        lacked = !*one;
    }
    true
}

/// Whether all calls have memory, and some clause is counted, so that learning had it too.
fn all_have_memory(alloc: Global) -> Result<bool, NoMemory> {
    let mut scene = scene_of(alloc)?;
    let [first, added, defined, second, third] = calls(alloc, &mut scene)?;
    Ok(first && added && defined && second && third && scene.used() > 0)
}

/// Whether an engine that once lacked memory goes on to say so.
fn want_is_kept(alloc: Global) -> Result<bool, NoMemory> {
    let mut scene = scene_of(alloc)?;
    let had = calls(alloc, &mut scene)?;
    Ok(stays_without(&had))
}

#[test]
fn calls_with_memory_answer(rt: HostRuntime) -> Result<(), Fail> {
    assert!(rt; all_have_memory(rt.alloc())?);
    Ok(())
}

#[test]
fn want_of_memory_stays(rt: HostRuntime) -> Result<(), Fail> {
    assert!(rt; want_is_kept(rt.alloc())?);
    Ok(())
}
