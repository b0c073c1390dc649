use crate::trials::scene::{has_values, state_of};
use clause_store::{Clause, ClauseRef, Lit, Store, Units, Value};
use completion::complete;
use item_list::NoMemory;
use plain_entailment::is_entailed;
use rule_normaliser::{NormalError, normalise};
use std::alloc::Global;
use std::test::Fail;
use trial_inputs::{clause_of, normal_of, program_of};

/// The text of a program, the values of literals, by their codes, after propagation, and a clause
/// that is false in some answer set.
struct Case {
    text: &'static [u8],
    values: &'static [(u32, Value)],
    not_entailed: &'static [u32],
}

// In each program atom 1 is forbidden. Atom a has the literal 2 * a, the bodies have the variables
// after the atoms, and the selectors those after the bodies.
static CASES: [Case; 3] = [
    // The fact 2. Its body is empty, and the selectors are open. 2 alone is the answer set, so "1
    // or not 2" is false in it.
    Case {
        text: b"1 2 0 0\n0\n2 a\n0\nB+\n0\nB-\n1\n0\n1\n",
        values: &[
            (2, Value::No),
            (4, Value::Yes),
            (6, Value::Yes),
            (8, Value::Unset),
            (10, Value::Unset),
        ],
        not_entailed: &[2, 5],
    },
    // 2 where 3 and not 4. The fact 3. No rule for 4. So the body with 3 and not 4 holds. 2 and 3
    // are the answer set, so "not 2 or 4" is false in it.
    Case {
        text: b"1 2 2 1 4 3\n1 3 0 0\n0\n2 a\n3 b\n4 c\n0\nB+\n0\nB-\n1\n0\n1\n",
        values: &[
            (2, Value::No),
            (4, Value::Yes),
            (6, Value::Yes),
            (8, Value::No),
            (10, Value::Yes),
            (12, Value::Yes),
        ],
        not_entailed: &[5, 8],
    },
    // 2 may be chosen. 3 where 2. 4 where 4: it is in no answer set, but no clause says so. The
    // empty set is one, so "2 or 4" is not entailed.
    Case {
        text: b"3 1 2 0 0\n1 3 1 0 2\n1 4 1 0 4\n0\n2 a\n0\nB+\n0\nB-\n1\n0\n1\n",
        values: &[
            (2, Value::No),
            (4, Value::Unset),
            (6, Value::Unset),
            (8, Value::Unset),
            (10, Value::Yes),
            (12, Value::Unset),
            (14, Value::Unset),
        ],
        not_entailed: &[4, 8],
    },
];

/// Whether propagation ends with no false clause and gives a case's literals their values.
fn is_shown(alloc: Global, case: &Case) -> Result<bool, NoMemory> {
    let Some(normal) = normal_of(alloc, case.text) else {
        return Ok(false);
    };
    let mut state = state_of(alloc, &normal)?;
    Ok(state.propagate().is_none() && has_values(state.trail(), case.values))
}

#[test]
fn propagation_decides_what_base_clauses_force(rt: HostRuntime) -> Result<(), Fail> {
    for (number, case) in CASES.iter().enumerate() {
        assert!(rt; is_shown(rt.alloc(), case)?, "{number}");
    }
    Ok(())
}

/// Whether the slow check tells each base clause of a case to be entailed, and the other clause
/// not.
fn is_told_apart(alloc: Global, case: &Case) -> Result<bool, NormalError> {
    let Some(program) = program_of(alloc, case.text) else {
        return Ok(false);
    };
    let normal = normalise(alloc, &program)?;
    let mut store = Store::open();
    complete(alloc, &normal, &mut store)?;
    let none = Units::open();
    for at in 0..store.len() {
        let clause = Clause::from_slice(alloc, store.lits(ClauseRef(at)))?;
        if !is_entailed(alloc, &program, &normal, &none, &clause)? {
            return Ok(false);
        }
    }
    let other = clause_of(alloc, case.not_entailed)?;
    Ok(!is_entailed(alloc, &program, &normal, &none, &other)?)
}

#[test]
fn base_clauses_are_entailed_by_the_slow_check(rt: HostRuntime) -> Result<(), Fail> {
    for (number, case) in CASES.iter().enumerate() {
        assert!(rt; is_told_apart(rt.alloc(), case)?, "{number}");
    }
    Ok(())
}
