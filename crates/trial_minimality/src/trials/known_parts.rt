// Small programs with sets whose smaller parts are known.
use crate::trials::scene::{Scene, Shown};
use item_list::NoMemory;
use std::alloc::Global;
use std::test::Fail;
use trial_inputs::{program_of, set_of};

/// The text of a program, a set of its atoms by a bit for each from atom 1 on, and its proper
/// subsets that keep the rules of the reduct, in ascending order.
struct Case {
    shows: &'static str,
    text: &'static [u8],
    set: u32,
    parts: &'static [u32],
}

static CASES: [Case; 9] = [
    // 2 or 3.
    Case {
        shows: "either of two",
        text: b"8 2 2 3 0 0\n0\n2 a\n3 b\n0\nB+\n0\nB-\n1\n0\n1\n",
        set: 0b110,
        parts: &[0b010, 0b100],
    },
    Case {
        shows: "one of two",
        text: b"8 2 2 3 0 0\n0\n2 a\n3 b\n0\nB+\n0\nB-\n1\n0\n1\n",
        set: 0b010,
        parts: &[],
    },
    // 1 where 2. 2 where 1. No part lacks just one of them.
    Case {
        shows: "two that support each other",
        text: b"1 1 1 0 2\n1 2 1 0 1\n0\n0\nB+\n0\nB-\n0\n1\n",
        set: 0b11,
        parts: &[0],
    },
    // 1 where 2. 2 where 3. 3 where 1.
    Case {
        shows: "three that support each other",
        text: b"1 1 1 0 2\n1 2 1 0 3\n1 3 1 0 1\n0\n0\nB+\n0\nB-\n0\n1\n",
        set: 0b111,
        parts: &[0],
    },
    // 1 or 2. 1 where 2. 2 where 1.
    Case {
        shows: "heads in a cycle",
        text: b"8 2 1 2 0 0\n1 1 1 0 2\n1 2 1 0 1\n0\n0\nB+\n0\nB-\n0\n1\n",
        set: 0b11,
        parts: &[],
    },
    // 1 or 2. 3 where 2. 2 where 3. One part lacks 1, the other 2 and 3.
    Case {
        shows: "a cycle beside a head",
        text: b"8 2 1 2 0 0\n1 3 1 0 2\n1 2 1 0 3\n0\n0\nB+\n0\nB-\n0\n1\n",
        set: 0b111,
        parts: &[0b001, 0b110],
    },
    // 1 or 2. 3 where 2. 4 where 3. 2 where 4. One part lacks 1, the other 2, 3 and 4.
    Case {
        shows: "a longer cycle beside a head",
        text: b"8 2 1 2 0 0\n1 3 1 0 2\n1 4 1 0 3\n1 2 1 0 4\n0\n0\nB+\n0\nB-\n0\n1\n",
        set: 0b1111,
        parts: &[0b0001, 0b1110],
    },
    // 1 or 2. 3 may be chosen. 4 where 1 with weight 2 and 3 with weight 1 reach 2.
    Case {
        shows: "a choice and a weight body beside a disjunction",
        text: b"8 2 1 2 0 0\n3 1 3 0 0\n5 4 2 2 0 1 3 2 1\n0\n0\nB+\n0\nB-\n0\n1\n",
        set: 0b1111,
        parts: &[0b0110, 0b1101, 0b1110],
    },
    Case {
        shows: "a set that a weight body completes",
        text: b"8 2 1 2 0 0\n3 1 3 0 0\n5 4 2 2 0 1 3 2 1\n0\n0\nB+\n0\nB-\n0\n1\n",
        set: 0b1101,
        parts: &[],
    },
];

/// Whether a case has the parts that it says, and the test answers with one of them.
fn is_shown(alloc: Global, case: &Case) -> Result<bool, NoMemory> {
    let Some(program) = program_of(alloc, case.text) else {
        return Ok(false);
    };
    match Scene::of(alloc, program) {
        None => Ok(false),
        Some(scene) => {
            let set = set_of(alloc, scene.normal.atoms, case.set)?;
            let parts = scene.parts(alloc, &set, case.set)?;
            let shown = scene.shows(alloc, case.set, 100)?;
            Ok(parts.as_slice() == case.parts && shown == Shown::Right)
        }
    }
}

#[test]
fn smaller_parts_are_found_where_there_are_some(rt: HostRuntime) -> Result<(), Fail> {
    for case in &CASES {
        assert!(rt; is_shown(rt.alloc(), case)?, "{}", case.shows);
    }
    Ok(())
}
