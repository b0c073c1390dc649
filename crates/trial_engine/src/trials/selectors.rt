// Selectors between questions. Variables 3 and 4 become selectors of 'some of 1 and 2 is true' and
// 'some of them is false'.
use crate::trials::asking::{Kind, MANY, asks, has_core};
use crate::trials::clauses::{clauses_of, lits_of};
use crate::trials::listed::Manner;
use crate::trials::scene::{Posed, Scene};
use clause_store::{Lit, Trail, Value};
use item_list::NoMemory;
use std::alloc::Global;
use std::test::Fail;

static OWN: [&[u32]; 1] = [&[2, 5]];

static LISTED: [&[u32]; 1] = [&[3, 4]];

/// An engine whose models have variables 1 and 2 alike, with both selectors.
fn scene_of(alloc: Global) -> Result<Scene, NoMemory> {
    let base = clauses_of(alloc, &OWN)?;
    let listed = clauses_of(alloc, &LISTED)?;
    let posed = Posed {
        vars: 4,
        base: &base,
        listed: &listed,
        manner: Manner::AtTheEnd,
        limit: MANY,
    };
    let mut scene = Scene::open(alloc, posed)?;
    define(alloc, &mut scene, 3, &[2, 4])?;
    define(alloc, &mut scene, 4, &[3, 5])?;
    Ok(scene)
}

/// Makes a variable a selector.
fn define(alloc: Global, scene: &mut Scene, var: u8, codes: &[u32]) -> Result<(), NoMemory> {
    let any = lits_of(alloc, codes)?;
    scene.define(alloc, var, any.as_slice())?;
    Ok(())
}

/// Whether there is a model with these literals true, where one was assumed.
fn has_model(alloc: Global, assumed: &[Lit], lits: &[u32]) -> Result<bool, NoMemory> {
    let mut scene = scene_of(alloc)?;
    gives_model(alloc, &mut scene, assumed, lits)
}

/// Whether the answer is a model with these literals true.
fn gives_model(
    alloc: Global,
    scene: &mut Scene,
    assumed: &[Lit],
    lits: &[u32],
) -> Result<bool, NoMemory> {
    let kind = asks(alloc, scene, assumed, MANY)?;
    Ok(matches!(kind, Kind::Model) && are_true(scene.trail(), lits))
}

/// Whether all literals are true.
fn are_true(trail: &Trail, codes: &[u32]) -> bool {
    for code in codes {
        let lit = Lit(*code);
        if !trail.has(lit) || trail.value(lit) != Value::Yes {
            return false;
        }
    }
    true
}

/// Whether both selectors can't be on, and are the core.
fn both_are_refused(alloc: Global) -> Result<bool, NoMemory> {
    let mut scene = scene_of(alloc)?;
    has_core(alloc, &mut scene, &[6, 8], &[6, 8])
}

#[test]
fn a_selector_that_is_on_has_its_way(rt: HostRuntime) -> Result<(), Fail> {
    assert!(rt; has_model(rt.alloc(), &[Lit(6)], &[2, 4, 6, 9])?);
    assert!(rt; has_model(rt.alloc(), &[Lit(8)], &[3, 5, 7, 8])?);
    Ok(())
}

#[test]
fn a_selector_that_is_not_assumed_is_off(rt: HostRuntime) -> Result<(), Fail> {
    assert!(rt; has_model(rt.alloc(), &[], &[7, 9])?);
    Ok(())
}

#[test]
fn selectors_that_contradict_are_a_core(rt: HostRuntime) -> Result<(), Fail> {
    assert!(rt; both_are_refused(rt.alloc())?);
    Ok(())
}
