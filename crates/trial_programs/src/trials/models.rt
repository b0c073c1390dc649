// What sets break first, and which rules of a reduct they keep, on four small programs whose answer
// sets are known.
use super::scene::{rule_of, set_of};
use ground_program::{
    Atoms, Broken, Kind, Names, Pair, Program, Rules, holds_in, is_model, is_valid,
};
use item_list::NoMemory;
use std::alloc::Global;
use std::test::Fail;

type RuleRow = (Kind, &'static [u32], u32, &'static [(u32, bool, u32)]);

/// The greatest atom and the rules of the programs. Atom 1 is forbidden in each.
const PROGRAMS: [(u32, &'static [RuleRow]); 4] = [
    // `a :- not b. b :- not a. c :- a. c :- b.` with the answer sets `a c` and `b c`
    (
        4,
        &[
            (Kind::Basic, &[2], 1, &[(3, true, 1)]),
            (Kind::Basic, &[3], 1, &[(2, true, 1)]),
            (Kind::Basic, &[4], 1, &[(2, false, 1)]),
            (Kind::Basic, &[4], 1, &[(3, false, 1)]),
        ],
    ),
    // `a :- b. b :- a.` with the empty answer set alone
    (
        3,
        &[
            (Kind::Basic, &[2], 1, &[(3, false, 1)]),
            (Kind::Basic, &[3], 1, &[(2, false, 1)]),
        ],
    ),
    // `a | b.` with the answer sets `a` and `b`
    (3, &[(Kind::Disjunctive, &[2, 3], 0, &[])]),
    // `{a, b}. c :- 3 [a = 2, b = 1].` with the answer sets none, `a`, `b` and `a b c`
    (
        4,
        &[
            (Kind::Choice, &[2, 3], 0, &[]),
            (Kind::Weight, &[4], 3, &[(2, false, 2), (3, false, 1)]),
        ],
    ),
];

fn program_of(
    alloc: Global,
    atoms: u32,
    rows: &[RuleRow],
    must: &[u32],
) -> Result<Program, NoMemory> {
    let mut rules = Rules::open();
    for (kind, heads, bound, parts) in rows {
        rules.push(alloc, rule_of(alloc, *kind, heads, *bound, parts)?)?;
    }
    let must = Atoms::from_slice(alloc, must)?;
    let must_not = Atoms::from_slice(alloc, &[1])?;
    Ok(Program {
        atoms,
        rules,
        names: Names::open(),
        must,
        must_not,
        models: 1,
    })
}

/// A program of the table, the atoms that are asked for, a set, and what the set breaks first.
type BreachRow = (usize, &'static [u32], &'static [u32], Result<(), Broken>);

const BREACHES: [BreachRow; 12] = [
    (0, &[], &[2, 4], Ok(())),
    (0, &[], &[2, 3, 4], Ok(())),
    (0, &[], &[], Err(Broken::Rule(0))),
    (0, &[], &[2], Err(Broken::Rule(2))),
    (0, &[], &[1, 3, 4], Err(Broken::Compute(1))),
    (1, &[], &[2, 3], Ok(())),
    (1, &[], &[2], Err(Broken::Rule(1))),
    (2, &[], &[3], Ok(())),
    (2, &[], &[], Err(Broken::Rule(0))),
    (3, &[], &[], Ok(())),
    (3, &[], &[2, 3], Err(Broken::Rule(1))),
    (3, &[3], &[1, 2], Err(Broken::Compute(3))),
];

/// Whether the set of a row breaks first what is written.
fn is_as_written(alloc: Global, row: &BreachRow) -> Result<bool, NoMemory> {
    let (which, must, atoms, want) = *row;
    let Some((last, rules)) = PROGRAMS.get(which) else {
        return Ok(false);
    };
    let program = program_of(alloc, *last, rules, must)?;
    let set = set_of(alloc, *last, atoms)?;
    if !is_valid(&program) || set.len() as u64 != program.atoms as u64 + 1 {
        return Ok(false);
    }
    Ok(is_model(&program, &set) == want)
}

fn all_are_as_written(alloc: Global) -> Result<bool, NoMemory> {
    for row in &BREACHES {
        if !is_as_written(alloc, row)? {
            return Ok(false);
        }
    }
    Ok(true)
}

/// Whether all rules of the reduct by `by` hold in the set of these atoms.
fn all_hold(alloc: Global, which: usize, by: &[u32], atoms: &[u32]) -> Result<bool, NoMemory> {
    let Some((last, rules)) = PROGRAMS.get(which) else {
        return Ok(false);
    };
    let program = program_of(alloc, *last, rules, &[])?;
    let by = set_of(alloc, *last, by)?;
    let set = set_of(alloc, *last, atoms)?;
    for rule in program.rules.as_slice() {
        if !holds_in(rule, &by, &set) {
            return Ok(false);
        }
    }
    Ok(true)
}

/// A program, the set that the reduct goes by, a set, and whether it keeps the reduct.
const REDUCTS: [(usize, &'static [u32], &'static [u32], bool); 9] = [
    (0, &[2, 4], &[2], false),
    (0, &[2, 4], &[4], false),
    (0, &[2, 3, 4], &[], true),
    (1, &[2, 3], &[], true),
    (2, &[2, 3], &[2], true),
    (2, &[2], &[], false),
    (3, &[], &[], true),
    (3, &[2], &[], false),
    (3, &[2, 3, 4], &[2, 3], false),
];

fn reducts_are_kept(alloc: Global) -> Result<bool, NoMemory> {
    for (which, by, atoms, want) in &REDUCTS {
        if all_hold(alloc, *which, by, atoms)? != *want {
            return Ok(false);
        }
    }
    Ok(true)
}

/// A pair whose lower bound gets a candidate.
fn pairs_are_measured(alloc: Global) -> Result<bool, NoMemory> {
    let mut pair = Pair::open(alloc, 3)?;
    if pair.lower.len() != 3 || pair.upper.len() != 3 {
        return Ok(false);
    }
    pair.lower.set(1, true);
    Ok(pair.lower_len() == 1 && pair.upper_len() == 3)
}

#[test]
fn the_first_breach_is_told(rt: HostRuntime) -> Result<(), Fail> {
    let shown = all_are_as_written(rt.alloc())?;
    assert!(rt; shown);
    Ok(())
}

#[test]
fn a_reduct_goes_by_one_set_and_is_kept_by_another(rt: HostRuntime) -> Result<(), Fail> {
    let shown = reducts_are_kept(rt.alloc())?;
    assert!(rt; shown);
    Ok(())
}

#[test]
fn a_pair_counts_its_candidates(rt: HostRuntime) -> Result<(), Fail> {
    let shown = pairs_are_measured(rt.alloc())?;
    assert!(rt; shown);
    Ok(())
}
