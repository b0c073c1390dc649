// Small sets of clauses whose answers were worked out by hand.
use crate::trials::asking::MANY;
use crate::trials::clauses::{clauses_of, lits_of};
use crate::trials::listed::Manner;
use crate::trials::scene::{Posed, Scene};
use assumption_engine::Answer;
use clause_store::{Clause, Lit, Units};
use item_list::NoMemory;
use std::alloc::Global;
use std::test::Fail;

/// A set of clauses with assumed literals, and what is answered.
struct Case {
    shows: &'static str,
    vars: u8,
    base: &'static [&'static [u32]],
    assumed: &'static [u32],
    /// The core, or a model where there is none.
    core: Option<&'static [u32]>,
    /// The clauses that are counted.
    counted: &'static [&'static [u32]],
}

static CASES: [Case; 9] = [
    Case {
        shows: "the failed literal comes first in a core, and the decision after it",
        vars: 2,
        base: &[&[3, 4]],
        assumed: &[2, 5],
        core: Some(&[5, 2]),
        counted: &[],
    },
    Case {
        shows: "three pigeons don't fit into two holes, whatever is assumed",
        vars: 6,
        base: &[
            &[2, 4],
            &[6, 8],
            &[10, 12],
            &[3, 7],
            &[3, 11],
            &[7, 11],
            &[5, 9],
            &[5, 13],
            &[9, 13],
        ],
        assumed: &[3],
        core: Some(&[]),
        counted: &[&[5]],
    },
    Case {
        shows: "the first point that all implications pass is learned, and not the decision",
        vars: 4,
        base: &[&[3, 4], &[5, 6], &[5, 8], &[7, 9]],
        assumed: &[2],
        core: Some(&[2]),
        counted: &[&[5]],
    },
    Case {
        shows: "a clause with literals of two levels goes back to the lower one",
        vars: 3,
        base: &[&[5, 6], &[3, 5, 7]],
        assumed: &[2, 4],
        core: Some(&[4, 2]),
        counted: &[&[3, 5]],
    },
    Case {
        shows: "literals that oppose each other need no clause",
        vars: 2,
        base: &[],
        assumed: &[4, 2, 5],
        core: Some(&[5, 4]),
        counted: &[],
    },
    Case {
        shows: "what is false whatever is decided is a core alone",
        vars: 3,
        base: &[&[3], &[2, 5]],
        assumed: &[6, 4],
        core: Some(&[4]),
        counted: &[],
    },
    Case {
        shows: "a core leaves out a decision that doesn't matter",
        vars: 5,
        base: &[&[2], &[3, 5, 8], &[9, 10]],
        assumed: &[4, 6, 11],
        core: Some(&[11, 4]),
        counted: &[],
    },
    Case {
        shows: "the empty clause can't be met",
        vars: 1,
        base: &[&[]],
        assumed: &[2],
        core: Some(&[]),
        counted: &[],
    },
    Case {
        shows: "a model after one conflict",
        vars: 3,
        base: &[&[2, 4], &[2, 5, 6], &[2, 5, 7]],
        assumed: &[],
        core: None,
        counted: &[&[2]],
    },
];

/// What the first case shows that isn't answered so.
fn wrongly_answered(alloc: Global) -> Result<Option<&'static str>, NoMemory> {
    for case in &CASES {
        if !is_shown(alloc, case)? {
            return Ok(Some(case.shows));
        }
    }
    Ok(None)
}

/// Whether a case gets its answer, which is right, and counts what it says.
fn is_shown(alloc: Global, case: &Case) -> Result<bool, NoMemory> {
    let assumed = lits_of(alloc, case.assumed)?;
    let mut scene = scene_of(alloc, case)?;
    is_answered(alloc, &mut scene, assumed.as_slice(), case)
}

/// Whether the engine of a case answers as it says.
fn is_answered(
    alloc: Global,
    scene: &mut Scene,
    assumed: &[Lit],
    case: &Case,
) -> Result<bool, NoMemory> {
    let answer = scene.ask(alloc, assumed, MANY)?;
    Ok(is_as_told(scene, assumed, &answer, case))
}

/// Whether an answer is right, and that of a case, with what was counted.
fn is_as_told(scene: &Scene, assumed: &[Lit], answer: &Answer, case: &Case) -> bool {
    scene.is_right(assumed, answer)
        && is_told(answer, case.core)
        && are_those(scene.counted(), case.counted)
}

/// The engine of a case, with a theory of no clauses.
fn scene_of(alloc: Global, case: &Case) -> Result<Scene, NoMemory> {
    let base = clauses_of(alloc, case.base)?;
    let listed = Units::open();
    let posed = Posed {
        vars: case.vars,
        base: &base,
        listed: &listed,
        manner: Manner::AtTheEnd,
        limit: MANY,
    };
    Scene::open(alloc, posed)
}

/// Whether the answer is a model, or the core of these codes.
fn is_told(answer: &Answer, core: Option<&[u32]>) -> bool {
    match answer {
        Answer::Model => core.is_none(),
        Answer::Core(lits) => is_just(lits, core),
        _ => false,
    }
}

/// Whether there are codes, and a clause has just these.
fn is_just(clause: &Clause, codes: Option<&[u32]>) -> bool {
    match codes {
        None => false,
        Some(codes) => has_codes(clause, codes),
    }
}

/// Whether clauses have just these codes.
fn are_those(clauses: &[Clause], lists: &[&[u32]]) -> bool {
    if clauses.len() != lists.len() {
        return false;
    }
    for (clause, codes) in clauses.iter().zip(lists) {
        if !has_codes(clause, codes) {
            return false;
        }
    }
    true
}

/// Whether a clause has just these codes.
fn has_codes(clause: &Clause, codes: &[u32]) -> bool {
    if clause.len() != codes.len() {
        return false;
    }
    for (lit, code) in clause.as_slice().iter().zip(codes) {
        if lit.0 != *code {
            return false;
        }
    }
    true
}

#[test]
fn worked_clauses_get_their_answers(rt: HostRuntime) -> Result<(), Fail> {
    assert_eq!(rt; wrongly_answered(rt.alloc())?, None);
    Ok(())
}
