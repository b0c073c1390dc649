// Small lists of clauses whose closures and units are known. Literal 2 says that variable 1 is
// true, literal 3 that it is false, and so on.
use crate::trials::clauses::clauses_of;
use clause_store::Lit;
use item_list::NoMemory;
use plain_units::{absorbs, are_units, closure, refutes};
use std::alloc::Global;
use std::test::Fail;

/// A list of clauses beside clauses that there are before.
struct Case {
    shows: &'static str,
    base: &'static [&'static [u32]],
    list: &'static [&'static [u32]],
    are_units: bool,
}

/// A chain of two steps, and a clause that its end makes false with one literal more.
const CHAIN: &[&[u32]] = &[&[5, 6], &[3, 4], &[7, 9, 8]];

const CASES: [Case; 9] = [
    Case {
        shows: "no clause",
        base: &[&[2]],
        list: &[],
        are_units: true,
    },
    Case {
        shows: "a clause that is new",
        base: &[&[3, 4], &[5, 6]],
        list: &[&[2, 8]],
        are_units: true,
    },
    Case {
        shows: "a clause that contains another",
        base: &[&[3, 4]],
        list: &[&[3, 4, 6]],
        are_units: false,
    },
    Case {
        shows: "what two clauses give in two steps",
        base: &[&[3, 4], &[5, 6]],
        list: &[&[3, 6]],
        are_units: false,
    },
    Case {
        shows: "what follows by cases and not by propagation",
        base: &[&[2, 4], &[2, 5]],
        list: &[&[2]],
        are_units: true,
    },
    Case {
        shows: "the empty clause",
        base: &[],
        list: &[&[]],
        are_units: false,
    },
    Case {
        shows: "a variable twice",
        base: &[],
        list: &[&[2, 3]],
        are_units: false,
    },
    Case {
        shows: "the same clause twice",
        base: &[],
        list: &[&[2, 4], &[2, 4]],
        are_units: false,
    },
    Case {
        shows: "a shorter clause after a longer one",
        base: &[],
        list: &[&[2, 4], &[2]],
        are_units: true,
    },
];

/// What the first case shows that is told wrongly.
fn wrongly_told(alloc: Global) -> Result<Option<&'static str>, NoMemory> {
    for case in &CASES {
        if is_told(alloc, case)? != case.are_units {
            return Ok(Some(case.shows));
        }
    }
    Ok(None)
}

/// Whether the list of a case is told to be one of units.
fn is_told(alloc: Global, case: &Case) -> Result<bool, NoMemory> {
    let base = clauses_of(alloc, case.base)?;
    let list = clauses_of(alloc, case.list)?;
    are_units(alloc, &base, &list)
}

/// Whether propagation goes on to the end.
fn propagation_goes_on(alloc: Global) -> Result<bool, NoMemory> {
    let clauses = clauses_of(alloc, CHAIN)?;
    let known = closure(alloc, clauses.as_slice(), &[Lit(2)])?;
    Ok(known.as_slice() == [Lit(2), Lit(4), Lit(6)].as_slice())
}

/// Whether literals are refuted where a clause is false in the end, and only there.
fn refutations_are_told(alloc: Global) -> Result<bool, NoMemory> {
    let clauses = clauses_of(alloc, CHAIN)?;
    let refuted = refutes(alloc, clauses.as_slice(), &[Lit(2), Lit(7)])?;
    let alone = refutes(alloc, clauses.as_slice(), &[Lit(2)])?;
    Ok(refuted && !alone)
}

/// Whether a clause is absorbed where propagation does what it does, and only there.
fn absorbed_clauses_are_told(alloc: Global) -> Result<bool, NoMemory> {
    let clauses = clauses_of(alloc, CHAIN)?;
    let absorbed = absorbs(alloc, clauses.as_slice(), &[Lit(3), Lit(6)])?;
    let alone = absorbs(alloc, clauses.as_slice(), &[Lit(6)])?;
    Ok(absorbed && !alone)
}

#[test]
fn closures_go_to_the_end(rt: HostRuntime) -> Result<(), Fail> {
    assert!(rt; propagation_goes_on(rt.alloc())?);
    Ok(())
}

#[test]
fn refuted_literals_are_told(rt: HostRuntime) -> Result<(), Fail> {
    assert!(rt; refutations_are_told(rt.alloc())?);
    Ok(())
}

#[test]
fn absorption_is_told(rt: HostRuntime) -> Result<(), Fail> {
    assert!(rt; absorbed_clauses_are_told(rt.alloc())?);
    Ok(())
}

#[test]
fn units_are_told_from_others(rt: HostRuntime) -> Result<(), Fail> {
    assert_eq!(rt; wrongly_told(rt.alloc())?, None);
    Ok(())
}
