// A small program whose answer sets are known, and clauses over its variables.
use clause_store::Units;
use item_list::NoMemory;
use plain_entailment::is_entailed;
use rule_normaliser::{NormalError, normalise};
use std::alloc::Global;
use std::test::Fail;
use trial_inputs::{clause_of, program_of};

// Of atoms 2 and 3 each excludes the other, and either gives atom 4.
static ONE_OF_TWO: &[u8] =
    b"1 2 1 1 3\n1 3 1 1 2\n1 4 1 0 2\n1 4 1 0 3\n0\n0\nB+\n0\nB-\n1\n0\n1\n";

/// Codes of literals.
type Codes = &'static [u32];

/// A clause, the disjunctions of the selectors, and whether the clause is entailed.
struct Case {
    shows: &'static str,
    disjunctions: &'static [Codes],
    clause: Codes,
    entailed: bool,
}

// The atoms are 1 to 4 and the bodies 5 to 8, so the selectors are 9 and on.
static CASES: [Case; 11] = [
    Case {
        shows: "an atom of both",
        disjunctions: &[],
        clause: &[8],
        entailed: true,
    },
    Case {
        shows: "one of two atoms",
        disjunctions: &[],
        clause: &[4, 6],
        entailed: true,
    },
    Case {
        shows: "not both atoms",
        disjunctions: &[],
        clause: &[5, 7],
        entailed: true,
    },
    Case {
        shows: "an atom of one",
        disjunctions: &[],
        clause: &[4],
        entailed: false,
    },
    Case {
        shows: "no atom",
        disjunctions: &[],
        clause: &[3],
        entailed: true,
    },
    Case {
        shows: "nothing",
        disjunctions: &[],
        clause: &[],
        entailed: false,
    },
    Case {
        shows: "one of two bodies",
        disjunctions: &[],
        clause: &[10, 12],
        entailed: true,
    },
    Case {
        shows: "another body",
        disjunctions: &[],
        clause: &[4, 10],
        entailed: false,
    },
    Case {
        shows: "a selector",
        disjunctions: &[&[4]],
        clause: &[19, 4],
        entailed: true,
    },
    Case {
        shows: "one that is off",
        disjunctions: &[&[4]],
        clause: &[18, 7],
        entailed: false,
    },
    Case {
        shows: "the second",
        disjunctions: &[&[4], &[6]],
        clause: &[19, 21],
        entailed: true,
    },
];

/// Whether the clause is told to be entailed or not, as the case says.
fn is_told(alloc: Global, case: &Case) -> Result<bool, NormalError> {
    let Some(program) = program_of(alloc, ONE_OF_TWO) else {
        return Ok(false);
    };
    let normal = normalise(alloc, &program)?;
    let disjunctions = units_of(alloc, case.disjunctions)?;
    let clause = clause_of(alloc, case.clause)?;
    Ok(is_entailed(alloc, &program, &normal, &disjunctions, &clause)? == case.entailed)
}

fn units_of(alloc: Global, rows: &[Codes]) -> Result<Units, NoMemory> {
    let mut units = Units::open();
    for codes in rows {
        units.push(alloc, clause_of(alloc, codes)?)?;
    }
    Ok(units)
}

#[test]
fn the_known_clauses_are_told_from_others(rt: HostRuntime) -> Result<(), Fail> {
    for case in &CASES {
        assert!(rt; is_told(rt.alloc(), case)?, "{}", case.shows);
    }
    Ok(())
}
