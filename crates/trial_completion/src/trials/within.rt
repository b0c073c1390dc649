// The clauses for the parts of a set against what they mean: every set over the atoms of a small
// program is tried.
ghost use Rattle.std.specs.Prelude.{◌<◌};
ghost use Rattle.ground_program.specs.Meaning.{IsSetOver};
ghost use Rattle.normal_program.specs.Limit.{IsNormal};

use clause_store::{ClauseRef, Store};
use completion::complete_within;
use ground_program::{Kind, has_atom};
use item_list::NoMemory;
use normal_program::{Normal, NormalRule};
use std::alloc::Global;
use std::test::Fail;
use trial_inputs::{body_holds, extension, has_true, normal_of, set_of};

/// A program, a set of its atoms by a bit for each from atom 1 on, and how many proper parts of the
/// set keep the rules of the reduct by it.
struct Case {
    text: &'static [u8],
    set: u32,
    smaller: u32,
}

static CASES: [Case; 6] = [
    // 1 and 2 support each other: the empty set keeps both rules.
    Case {
        text: b"1 1 1 0 2\n1 2 1 0 1\n0\n0\nB+\n0\nB-\n0\n1\n",
        set: 0b11,
        smaller: 1,
    },
    // A choice of 1: a head that is in the set must stay.
    Case {
        text: b"3 1 1 0 0\n0\n0\nB+\n0\nB-\n0\n1\n",
        set: 0b1,
        smaller: 0,
    },
    // 1 or 2, and each with the other: no part but all.
    Case {
        text: b"8 2 1 2 0 0\n1 1 1 0 2\n1 2 1 0 1\n0\n0\nB+\n0\nB-\n0\n1\n",
        set: 0b11,
        smaller: 0,
    },
    // 2 or 3, and 1 where two of not 4, 2 and 3 hold: 1 with 2, and 1 with 3.
    Case {
        text: b"8 2 2 3 0 0\n5 1 2 3 1 4 2 3 1 1 1\n0\n0\nB+\n0\nB-\n0\n1\n",
        set: 0b111,
        smaller: 2,
    },
    // 1 where not 2. With 2 in the set that body is false in every part.
    Case {
        text: b"1 1 1 1 2\n0\n0\nB+\n0\nB-\n0\n1\n",
        set: 0b11,
        smaller: 3,
    },
    // The same, without 2 in the set.
    Case {
        text: b"1 1 1 1 2\n0\n0\nB+\n0\nB-\n0\n1\n",
        set: 0b1,
        smaller: 0,
    },
];

/// Whether the heads of a rule hold in a set by another.
fn heads_hold(rule: &NormalRule, by: &[bool], set: &[bool]) -> bool {
    let heads = rule.heads.as_slice();
    match rule.kind {
        Kind::Choice => heads
            .iter()
            .all(|head| !has_atom(by, *head) || has_atom(set, *head)),
        Kind::Disjunctive => heads.iter().any(|head| has_atom(set, *head)),
        Kind::Basic | Kind::Constraint | Kind::Weight => heads
            .iter()
            .all(|head| has_atom(set, *head)),
    }
}

/// Whether a set keeps a rule of the reduct by another.
fn keeps(normal: &Normal, rule: &NormalRule, by: &[bool], set: &[bool]) -> bool {
    match normal.bodies.as_slice().get(rule.body as usize) {
        None => false,
        Some(body) => !body_holds(body, by, set) || heads_hold(rule, by, set),
    }
}

/// Whether a set keeps all rules of the reduct by another.
fn keeps_all(normal: &Normal, by: &[bool], set: &[bool]) -> bool {
    for rule in normal.rules.as_slice() {
        if !keeps(normal, rule, by, set) {
            return false;
        }
    }
    true
}

/// Whether a set is a proper part of another.
fn is_proper(part: &[bool], whole: &[bool]) -> bool {
    let mut other = false;
    for (one, all) in part.iter().zip(whole) {
        if *one && !*all {
            return false;
        }
        if *one != *all {
            other = true;
        }
    }
    other
}

/// Whether an assignment meets all clauses.
fn meets(store: &Store, values: &[bool]) -> bool {
    for at in 0..store.len() {
        if !has_true(values, store.lits(ClauseRef(at))) {
            return false;
        }
    }
    true
}

/// Whether the clauses say of a part what they mean. If so, whether it is a smaller one.
fn tried(
    alloc: Global,
    normal: &Normal,
    store: &Store,
    set: &[bool],
    part: &[bool],
) -> Result<Option<bool>, NoMemory> {
    let values = extension(alloc, normal, set, part)?;
    let smaller = is_proper(part, set) && keeps_all(normal, set, part);
    if meets(store, values.as_slice()) == smaller {
        Ok(Some(smaller))
    } else {
        Ok(None)
    }
}

/// How many parts the clauses let through, or none where they don't mean what they should.
fn smaller_parts(
    alloc: Global,
    normal: &Normal,
    store: &Store,
    set: &[bool],
) -> Result<Option<u32>, NoMemory>
    requires { normal.now.atoms < 5 }
{
    let mut count = 0u32;
    for bits in 0..32u32 {
        if bits >> normal.atoms == 0 {
            let part = set_of(alloc, normal.atoms, bits)?;
            match tried(alloc, normal, store, set, part.as_slice())? {
                None => return Ok(None),
                Some(smaller) => count = count.saturating_add(u32::from(smaller)),
            }
        }
    }
    Ok(Some(count))
}

/// Whether the clauses for the parts of a set mean what they should.
fn is_as_meant(alloc: Global, normal: &Normal, case: &Case) -> Result<bool, NoMemory>
    requires normal { IsNormal normal.now }
    requires atoms { normal.now.atoms < 5 }
{
    let set = set_of(alloc, normal.atoms, case.set)?;
    let mut store = Store::open();
    complete_within(alloc, normal, &set, &mut store)?;
    let found = smaller_parts(alloc, normal, &store, set.as_slice())?;
    Ok(found == Some(case.smaller))
}

fn is_shown(alloc: Global, case: &Case) -> Result<bool, NoMemory> {
    match normal_of(alloc, case.text) {
        None => Ok(false),
        Some(normal) => {
            if normal.atoms < 5 {
                is_as_meant(alloc, &normal, case)
            } else {
                Ok(false)
            }
        }
    }
}

#[test]
fn clauses_for_parts_speak_of_the_smaller_parts(rt: HostRuntime) -> Result<(), Fail> {
    for case in &CASES {
        let shown = is_shown(rt.alloc(), case)?;
        assert!(rt; shown);
    }
    Ok(())
}
