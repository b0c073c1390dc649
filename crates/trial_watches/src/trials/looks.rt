// How many clauses have their literals looked at.
ghost use Rattle.std.specs.Prelude.{IfOk};
ghost use Rattle.propagator.specs.Watched.{IsReady};

use crate::trials::scene::Scene;
use clause_store::Lit;
use item_list::NoMemory;
use std::alloc::Global;
use std::test::Fail;

/// Clause i says that one of the variables i, i + 1 and i + 2 is true, for i from 1 to 10,000.
fn a_row_of_clauses(alloc: Global) -> Result<Scene, NoMemory>
    ensures { IfOk result (λ it. IsReady it.store it.trail it.watches) }
{
    let mut scene = Scene::open(alloc, 10_002)?;
    for var in 1..10_001u32 {
        scene.add(alloc, &[2 * var, 2 * var + 2, 2 * var + 4])?;
    }
    Ok(scene)
}

/// Clause i says that variable i implies variable i + 1, for i from 1 to 10,000.
fn a_chain_of_clauses(alloc: Global) -> Result<Scene, NoMemory>
    ensures { IfOk result (λ it. IsReady it.store it.trail it.watches) }
{
    let mut scene = Scene::open(alloc, 10_001)?;
    for var in 1..10_001u32 {
        scene.add(alloc, &[2 * var + 1, 2 * var + 2])?;
    }
    Ok(scene)
}

/// Clause i says that variable i is true, for i from 1 to 10,000.
fn a_row_of_units(alloc: Global) -> Result<Scene, NoMemory>
    ensures { IfOk result (λ it. IsReady it.store it.trail it.watches) }
{
    let mut scene = Scene::open(alloc, 10_001)?;
    for var in 1..10_001u32 {
        scene.add(alloc, &[2 * var])?;
    }
    Ok(scene)
}

/// How many clauses a decision looks at.
fn looks_of(scene: &mut Scene, lit: Lit) -> u64
    requires { IsReady scene.old.store scene.old.trail scene.old.watches }
    ensures { IsReady scene.new.store scene.new.trail scene.new.watches }
{
    let before = scene.watches.looked();
    let _ = scene.decide(lit);
    scene.watches.looked().saturating_sub(before)
}

/// How many of 10,000 clauses of three literals the first propagation and one decision look at.
fn looks_at_a_row(alloc: Global) -> Result<(u64, u64), NoMemory> {
    let mut scene = a_row_of_clauses(alloc)?;
    let _ = scene.propagate();
    let first = scene.watches.looked();
    let second = looks_of(&mut scene, Lit(10_001));
    Ok((first, second))
}

#[test]
fn one_decision_looks_at_two_of_10_000_clauses(rt: HostRuntime) -> Result<(), Fail> {
    let (first, second) = looks_at_a_row(rt.alloc())?;
    assert!(rt; first == 0);
    assert!(rt; second == 2);
    Ok(())
}

/// How many of 10,000 clauses of two literals a decision looks at that makes all literals true, if
/// it does.
fn looks_at_a_chain(alloc: Global) -> Result<Option<u64>, NoMemory> {
    let mut scene = a_chain_of_clauses(alloc)?;
    let looks = looks_of(&mut scene, Lit(2));
    Ok(scene.is_true(Lit(20_002)).then_some(looks))
}

#[test]
fn clauses_of_two_literals_are_not_looked_at(rt: HostRuntime) -> Result<(), Fail> {
    assert!(rt; looks_at_a_chain(rt.alloc())? == Some(0));
    Ok(())
}

/// How many of 10,000 clauses of one literal the first propagation and one decision look at.
fn looks_at_units(alloc: Global) -> Result<(u64, u64), NoMemory> {
    let mut scene = a_row_of_units(alloc)?;
    let _ = scene.propagate();
    let first = scene.watches.looked();
    let second = looks_of(&mut scene, Lit(20_002));
    Ok((first, second))
}

#[test]
fn units_are_looked_at_once(rt: HostRuntime) -> Result<(), Fail> {
    let (first, second) = looks_at_units(rt.alloc())?;
    assert!(rt; first == 10_000);
    assert!(rt; second == 0);
    Ok(())
}
