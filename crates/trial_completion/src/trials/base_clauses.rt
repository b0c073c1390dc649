// Small programs with their base clauses, written as the codes of the literals with a 0 after
// each clause.
use clause_store::{ClauseRef, Store};
use completion::complete;
use item_list::NoMemory;
use std::alloc::Global;
use std::test::Fail;
use trial_inputs::normal_of;

/// The text of a program in which atom 1 is forbidden, and its base clauses.
struct Case {
    text: &'static [u8],
    codes: &'static [u32],
}

static CASES: [Case; 3] = [
    // A fact.
    Case {
        text: b"1 2 0 0\n0\n0\nB+\n0\nB-\n1\n0\n1\n",
        codes: &[6, 0, 7, 4, 0, 3, 0, 5, 6, 0, 3, 0],
    },
    // A body with an atom and its negation: its last clause is a tautology.
    Case {
        text: b"1 2 2 1 3 3\n0\n0\nB+\n0\nB-\n1\n0\n1\n",
        codes: &[9, 7, 0, 9, 6, 0, 9, 4, 0, 3, 0, 5, 8, 0, 7, 0, 3, 0],
    },
    // A head twice, a choice rule, and a weight body.
    Case {
        text: b"8 2 2 2 0 0\n3 2 3 2 0 0\n2 3 2 0 1 1 2\n0\n0\nB+\n0\nB-\n1\n0\n1\n",
        codes: &[8, 0, 9, 4, 0, 11, 6, 0, 3, 0, 5, 8, 0, 7, 8, 10, 0, 3, 0],
    },
];

/// The codes of the clauses of a store.
fn codes_of(alloc: Global, store: &Store) -> Result<Vec<u32>, NoMemory> {
    let mut codes = Vec::new(alloc);
    for at in 0..store.len() {
        for lit in store.lits(ClauseRef(at)) {
            codes.push(lit.0)?;
        }
        codes.push(0)?;
    }
    Ok(codes)
}

/// Whether the base clauses of a case are as it says.
fn is_shown(alloc: Global, case: &Case) -> Result<bool, NoMemory> {
    match normal_of(alloc, case.text) {
        None => Ok(false),
        Some(normal) => {
            let mut store = Store::open();
            complete(alloc, &normal, &mut store)?;
            let codes = codes_of(alloc, &store)?;
            Ok(codes.as_slice() == case.codes)
        }
    }
}

#[test]
fn base_clauses_come_in_their_order(rt: HostRuntime) -> Result<(), Fail> {
    for case in &CASES {
        let shown = is_shown(rt.alloc(), case)?;
        assert!(rt; shown);
    }
    Ok(())
}
