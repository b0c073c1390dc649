// Small programs whose answer sets are known.
use super::scene::{rule_of, set_of};
use ground_program::{Atoms, Kind, Names, Program, Rules};
use item_list::NoMemory;
use plain_answer_sets::is_answer_set;
use std::alloc::Global;
use std::test::Fail;

/// A program over the atoms 1 to 4, of which atom 1 is forbidden.
struct Case {
    /// The kind, the heads, the bound, and the body as atoms, whether negated, with weights.
    rules: &'static [(Kind, &'static [u32], u32, &'static [(u32, bool, u32)])],
    must: &'static [u32],
    answer_sets: &'static [&'static [u32]],
    others: &'static [&'static [u32]],
}

const CASES: [Case; 7] = [
    // no rule
    Case {
        rules: &[],
        must: &[],
        answer_sets: &[&[]],
        others: &[&[0], &[2]],
    },
    // one of two heads
    Case {
        rules: &[(Kind::Disjunctive, &[2, 3], 0, &[])],
        must: &[],
        answer_sets: &[&[2], &[3]],
        others: &[&[], &[2, 3], &[0, 2], &[2, 4]],
    },
    // two atoms that rest on each other
    Case {
        rules: &[
            (Kind::Basic, &[2], 1, &[(3, false, 1)]),
            (Kind::Basic, &[3], 1, &[(2, false, 1)]),
        ],
        must: &[],
        answer_sets: &[&[]],
        others: &[&[2, 3], &[2]],
    },
    // two atoms of which each excludes the other
    Case {
        rules: &[
            (Kind::Basic, &[2], 1, &[(3, true, 1)]),
            (Kind::Basic, &[3], 1, &[(2, true, 1)]),
        ],
        must: &[],
        answer_sets: &[&[2], &[3]],
        others: &[&[], &[2, 3]],
    },
    // a choice and a weight rule
    Case {
        rules: &[
            (Kind::Choice, &[2, 3], 0, &[]),
            (Kind::Weight, &[4], 3, &[(2, false, 2), (3, false, 1)]),
        ],
        must: &[],
        answer_sets: &[&[], &[2], &[3], &[2, 3, 4]],
        others: &[&[2, 3], &[4]],
    },
    // an atom that is asked for
    Case {
        rules: &[(Kind::Choice, &[2, 3], 0, &[])],
        must: &[3],
        answer_sets: &[&[3], &[2, 3]],
        others: &[&[], &[2]],
    },
    // an atom that is forbidden
    Case {
        rules: &[(Kind::Choice, &[1, 2], 0, &[])],
        must: &[],
        answer_sets: &[&[], &[2]],
        others: &[&[1], &[1, 2]],
    },
];

fn program_of(alloc: Global, case: &Case) -> Result<Program, NoMemory> {
    let mut rules = Rules::open();
    for (kind, heads, bound, body) in case.rules {
        rules.push(alloc, rule_of(alloc, *kind, heads, *bound, body)?)?;
    }
    let must = Atoms::from_slice(alloc, case.must)?;
    let must_not = Atoms::from_slice(alloc, &[1])?;
    Ok(Program {
        atoms: 4,
        rules,
        names: Names::open(),
        must,
        must_not,
        models: 1,
    })
}

/// Whether each of these sets is told to be an answer set, or none is.
fn are_told(
    alloc: Global,
    program: &Program,
    sets: &[&[u32]],
    want: bool,
) -> Result<bool, NoMemory> {
    for atoms in sets {
        let set = set_of(alloc, 4, atoms)?;
        if is_answer_set(alloc, program, &set)? != want {
            return Ok(false);
        }
    }
    Ok(true)
}

/// Whether a set over five atoms is told to be an answer set.
fn long_set_is_told(alloc: Global, program: &Program) -> Result<bool, NoMemory> {
    let long = set_of(alloc, 5, &[])?;
    is_answer_set(alloc, program, &long)
}

fn is_as_written(alloc: Global, case: &Case) -> Result<bool, NoMemory> {
    let program = program_of(alloc, case)?;
    if !are_told(alloc, &program, case.answer_sets, true)? {
        return Ok(false);
    }
    if !are_told(alloc, &program, case.others, false)? {
        return Ok(false);
    }
    let long = long_set_is_told(alloc, &program)?;
    Ok(!long)
}

fn all_are_as_written(alloc: Global) -> Result<bool, NoMemory> {
    for case in &CASES {
        if !is_as_written(alloc, case)? {
            return Ok(false);
        }
    }
    Ok(true)
}

#[test]
fn the_known_answer_sets_are_told_from_others(rt: HostRuntime) -> Result<(), Fail> {
    let shown = all_are_as_written(rt.alloc())?;
    assert!(rt; shown);
    Ok(())
}
