// A theory whose models are those with variable 1 false, and which says so only where all is
// assigned.
use crate::trials::asking::{MANY, has_core};
use crate::trials::clauses::{clauses_of, lits_of};
use crate::trials::listed::Manner;
use crate::trials::scene::{Posed, Scene};
use item_list::NoMemory;
use std::alloc::Global;
use std::test::Fail;

static OWN: [&[u32]; 1] = [&[3, 4]];

static LISTED: [&[u32]; 1] = [&[3]];

/// An engine over it, with the clause that variable 1 is false or 2 is true.
fn scene_over(alloc: Global, vars: u8) -> Result<Scene, NoMemory> {
    let base = clauses_of(alloc, &OWN)?;
    let listed = clauses_of(alloc, &LISTED)?;
    let posed = Posed {
        vars,
        base: &base,
        listed: &listed,
        manner: Manner::AtTheEnd,
        limit: MANY,
    };
    Scene::open(alloc, posed)
}

/// Whether both literals are needed where the clause is false.
fn the_clause_is_a_core(alloc: Global) -> Result<bool, NoMemory> {
    let mut scene = scene_over(alloc, 2)?;
    has_core(alloc, &mut scene, &[2, 5], &[2, 5])
}

/// Whether one is enough where what the theory says was added.
fn what_was_added_is_a_core(alloc: Global) -> Result<bool, NoMemory> {
    let mut scene = scene_over(alloc, 2)?;
    scene.add(alloc, 0);
    has_core(alloc, &mut scene, &[2], &[2])
}

/// Whether a selector takes the place of its literal.
fn a_selector_is_in_a_core(alloc: Global) -> Result<bool, NoMemory> {
    let mut scene = scene_over(alloc, 3)?;
    let any = lits_of(alloc, &[5])?;
    scene.define(alloc, 3, any.as_slice())?;
    has_core(alloc, &mut scene, &[2, 6], &[2, 6])
}

/// Whether what only the theory says is found at the end.
fn the_theory_is_asked(alloc: Global) -> Result<bool, NoMemory> {
    let mut scene = scene_over(alloc, 2)?;
    has_core(alloc, &mut scene, &[2], &[2])
}

#[test]
fn a_false_clause_is_a_core(rt: HostRuntime) -> Result<(), Fail> {
    assert!(rt; the_clause_is_a_core(rt.alloc())?);
    Ok(())
}

#[test]
fn an_added_clause_is_a_core(rt: HostRuntime) -> Result<(), Fail> {
    assert!(rt; what_was_added_is_a_core(rt.alloc())?);
    Ok(())
}

#[test]
fn a_selector_stands_for_its_literal(rt: HostRuntime) -> Result<(), Fail> {
    assert!(rt; a_selector_is_in_a_core(rt.alloc())?);
    Ok(())
}

#[test]
fn a_theory_has_its_say_at_the_end(rt: HostRuntime) -> Result<(), Fail> {
    assert!(rt; the_theory_is_asked(rt.alloc())?);
    Ok(())
}
