// Every set of clauses over two variables, with every question.
use crate::trials::asking::{MANY, answers};
use crate::trials::clauses::lits_of;
use crate::trials::listed::Manner;
use crate::trials::scene::{Posed, Scene};
use clause_store::Units;
use item_list::NoMemory;
use std::alloc::Global;
use std::test::Fail;

/// Every clause over two variables, and every list of literals to assume.
static CLAUSES: [&[u32]; 9] = [
    &[],
    &[2],
    &[3],
    &[4],
    &[5],
    &[2, 4],
    &[2, 5],
    &[3, 4],
    &[3, 5],
];

/// The clauses whose bits are on.
fn chosen(alloc: Global, bits: u32) -> Result<Units, NoMemory> {
    let mut clauses = Units::open();
    let mut left = bits;
    for codes in &CLAUSES {
        if left % 2 == 1 {
            let clause = lits_of(alloc, codes)?;
            clauses.push(alloc, clause)?;
        }
        left /= 2;
    }
    Ok(clauses)
}

/// Whether all questions are answered rightly where these clauses are in the store, and those in
/// the theory.
fn is_answered(alloc: Global, base: u32, listed: u32, manner: Manner) -> Result<bool, NoMemory> {
    let base = chosen(alloc, base)?;
    let listed = chosen(alloc, listed)?;
    let posed = Posed {
        vars: 2,
        base: &base,
        listed: &listed,
        manner,
        limit: MANY,
    };
    let mut scene = Scene::open(alloc, posed)?;
    all_questions(alloc, &mut scene)
}

/// Whether all questions are answered rightly.
fn all_questions(alloc: Global, scene: &mut Scene) -> Result<bool, NoMemory> {
    for codes in &CLAUSES {
        let assumed = lits_of(alloc, codes)?;
        if !answers(alloc, scene, assumed.as_slice())? {
            return Ok(false);
        }
    }
    scene.is_confirmed(alloc)
}

/// Whether every set is answered, of which the clauses that `own` names are in the store.
fn all_sets(alloc: Global, own: u32, manner: Manner) -> Result<bool, NoMemory> {
    for bits in 0..512 {
        if !is_answered(alloc, bits & own, bits & !own, manner)? {
            return Ok(false);
        }
    }
    Ok(true)
}

#[test]
fn every_set_in_the_store_is_answered(rt: HostRuntime) -> Result<(), Fail> {
    assert!(rt; all_sets(rt.alloc(), 511, Manner::AtTheEnd)?);
    Ok(())
}

#[test]
fn every_set_in_the_theory_is_answered(rt: HostRuntime) -> Result<(), Fail> {
    assert!(rt; all_sets(rt.alloc(), 0, Manner::AtTheEnd)?);
    assert!(rt; all_sets(rt.alloc(), 0, Manner::Every(2))?);
    Ok(())
}

#[test]
fn every_set_in_both_is_answered(rt: HostRuntime) -> Result<(), Fail> {
    assert!(rt; all_sets(rt.alloc(), 0b101_010_101, Manner::Every(1))?);
    assert!(rt; all_sets(rt.alloc(), 0b010_101_010, Manner::Every(3))?);
    Ok(())
}
