// Clauses that come while literals are assigned.
use crate::trials::scene::Scene;
use clause_store::Lit;
use item_list::NoMemory;
use std::alloc::Global;
use std::test::Fail;

/// Whether a clause that comes at level 2 and forces a literal by the assignments of level 1 does so
/// at once, and again after going back to level 1; and whether its literal is unset at level 0.
fn a_late_clause_forces_again(alloc: Global) -> Result<bool, NoMemory> {
    let mut scene = Scene::open(alloc, 4)?;
    let _ = scene.decide(Lit(2));
    let _ = scene.decide(Lit(4));
    scene.add(alloc, &[3, 6])?;
    let settled = scene.propagate().is_none() && scene.is_true(Lit(6));
    scene.back_to(1);
    let unset = !scene.is_true(Lit(6));
    let again = scene.propagate().is_none() && scene.is_true(Lit(6));
    scene.back_to(0);
    let gone = scene.propagate().is_none() && !scene.is_true(Lit(6));
    Ok(settled && unset && again && gone)
}

#[test]
fn a_late_clause_forces_its_literal_after_going_back(rt: HostRuntime) -> Result<(), Fail> {
    assert!(rt; a_late_clause_forces_again(rt.alloc())?);
    Ok(())
}

/// Whether a clause that is false when it comes is named, and forces a literal after going back.
fn a_late_clause_is_false(alloc: Global) -> Result<bool, NoMemory> {
    let mut scene = Scene::open(alloc, 4)?;
    scene.add(alloc, &[3, 5, 8])?;
    let _ = scene.decide(Lit(2));
    let _ = scene.decide(Lit(4));
    let forced = scene.is_true(Lit(8));
    let late = scene.add(alloc, &[3, 9])?;
    let named = scene.propagate() == Some(late);
    scene.back_to(1);
    let turned = scene.propagate().is_none() && scene.is_true(Lit(9)) && scene.is_true(Lit(5));
    Ok(forced && named && turned)
}

#[test]
fn a_late_clause_that_is_false_is_named(rt: HostRuntime) -> Result<(), Fail> {
    assert!(rt; a_late_clause_is_false(rt.alloc())?);
    Ok(())
}
