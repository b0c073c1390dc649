// Programs whose answer sets are known, and what a tester answers about them.
ghost use Rattle.normal_program.specs.Limit.{IsNormal};
ghost use Rattle.normal_program.specs.Normal.{IsNormalFormOf};
ghost use Rattle.trial_coherence.specs.Ready.{IsReady};

use crate::trials::scene::Scene;
use crate::trials::worked_programs::{A_FACT, ONE_OF_TWO};
use clause_store::Lit;
use coherence_test::{Asked, Tested};
use ground_program::Program;
use item_list::NoMemory;
use normal_program::Normal;
use rule_normaliser::normalise;
use std::alloc::Global;
use std::test::Fail;
use trial_inputs::{clause_of, program_of};

/// What a tester is to answer.
enum Expected {
    /// These truth values.
    Set(&'static [bool]),
    /// A core of these literals, by their codes, and whether it has the disjunction.
    Core(&'static [u32], bool),
}

/// A clause that is imported before, literals that are assumed, and a disjunction.
struct Question {
    imported: Option<&'static [u32]>,
    assumed: &'static [u32],
    any: Option<&'static [u32]>,
    expected: Expected,
}

/// A program, and questions that are asked of one tester, in this order.
struct Worked {
    shows: &'static str,
    text: &'static [u8],
    questions: &'static [Question],
}

static WORKED: [Worked; 2] = [
    Worked {
        shows: "an even loop",
        text: ONE_OF_TWO,
        questions: ABOUT_ONE_OF_TWO,
    },
    Worked {
        shows: "the negation of a fact",
        text: A_FACT,
        questions: ABOUT_A_FACT,
    },
];

const ABOUT_ONE_OF_TWO: &[Question] = &[
    // Neither 2 nor 3.
    Question {
        imported: None,
        assumed: &[5, 7],
        any: None,
        expected: Expected::Core(&[5, 7], false),
    },
    // 4 is in both answer sets. Without 2 the answer set has 3.
    Question {
        imported: Some(&[8]),
        assumed: &[5],
        any: None,
        expected: Expected::Set(&[false, false, false, true, true]),
    },
    // No answer set lacks 4.
    Question {
        imported: None,
        assumed: &[],
        any: Some(&[9]),
        expected: Expected::Core(&[], true),
    },
];

// Each question about the fact is answered alike, whatever the tester assigned before: nothing, an
// answer set, or literals that were assumed.
const ABOUT_A_FACT: &[Question] = &[
    // Without 2, while nothing is assigned yet.
    Question {
        imported: None,
        assumed: &[5],
        any: None,
        expected: Expected::Core(&[5], false),
    },
    // With 3.
    Question {
        imported: None,
        assumed: &[6],
        any: None,
        expected: Expected::Set(&[false, false, true, true, true]),
    },
    // Without 2, after an answer set.
    Question {
        imported: None,
        assumed: &[5],
        any: None,
        expected: Expected::Core(&[5], false),
    },
    // With 3 and without 2.
    Question {
        imported: None,
        assumed: &[6, 5],
        any: None,
        expected: Expected::Core(&[5], false),
    },
    // Without 2, among literals that contradict each other.
    Question {
        imported: None,
        assumed: &[6, 7, 5, 8],
        any: None,
        expected: Expected::Core(&[5], false),
    },
    // Without 3, which is still free.
    Question {
        imported: None,
        assumed: &[7],
        any: None,
        expected: Expected::Set(&[false, false, true, false, false]),
    },
    // Without 2, and with 3 or 4.
    Question {
        imported: None,
        assumed: &[5],
        any: Some(&[6, 8]),
        expected: Expected::Core(&[5], false),
    },
    // A disjunction of the negation alone.
    Question {
        imported: None,
        assumed: &[6],
        any: Some(&[5]),
        expected: Expected::Core(&[], true),
    },
    // A disjunction of the negation and 4.
    Question {
        imported: None,
        assumed: &[],
        any: Some(&[5, 8]),
        expected: Expected::Set(&[false, false, true, true, true]),
    },
];

/// Whether the clause of a question, if there is one, is imported.
fn is_imported(alloc: Global, scene: &mut Scene, question: &Question) -> Result<bool, NoMemory>
    requires { IsReady scene.old.program.now scene.old.normal.now scene.old.tester }
    ensures { IsReady scene.new.program.now scene.new.normal.now scene.new.tester }
{
    match question.imported {
        None => Ok(true),
        Some(codes) => {
            let clause = clause_of(alloc, codes)?;
            scene.import(alloc, &clause)
        }
    }
}

/// What a question asks.
fn asked_by(alloc: Global, question: &Question) -> Result<Asked, NoMemory> {
    let assume = clause_of(alloc, question.assumed)?;
    let any = match question.any {
        None => None,
        Some(codes) => Some(clause_of(alloc, codes)?),
    };
    Ok(Asked { assume, any })
}

/// Whether an answer is the one that is expected.
fn is_expected(tested: &Tested, expected: &Expected) -> bool {
    match (tested, expected) {
        (Tested::Found(set), Expected::Set(values)) => set.as_slice() == *values,
        (Tested::Core(core), Expected::Core(codes, any)) => {
            core.any == *any && has_codes(core.lits.as_slice(), codes)
        }
        _ => false,
    }
}

/// Whether literals have these codes, in any order.
fn has_codes(lits: &[Lit], codes: &[u32]) -> bool {
    lits.len() == codes.len()
        && codes
            .iter()
            .all(|code| lits.iter().any(|lit| lit.0 == *code))
}

/// Whether a question gets the answer that is expected.
fn is_answered(alloc: Global, scene: &mut Scene, question: &Question) -> Result<bool, NoMemory>
    requires { IsReady scene.old.program.now scene.old.normal.now scene.old.tester }
    ensures { IsReady scene.new.program.now scene.new.normal.now scene.new.tester }
{
    if !is_imported(alloc, scene, question)? {
        return Ok(false);
    }
    let asked = asked_by(alloc, question)?;
    Ok(match scene.settle(alloc, &asked)? {
        None => false,
        Some(tested) => is_expected(&tested, &question.expected),
    })
}

/// Whether questions get their answers, and no clause is counted on the way.
fn are_all_answered(
    alloc: Global,
    scene: &mut Scene,
    questions: &[Question],
) -> Result<bool, NoMemory>
    requires { IsReady scene.old.program.now scene.old.normal.now scene.old.tester }
{
    for question in questions {
        if !is_answered(alloc, scene, question)? {
            return Ok(false);
        }
    }
    Ok(scene.counted.len() == 0)
}

/// Whether questions get their answers from a tester of a normal form.
fn are_answered_for(
    alloc: Global,
    program: &Program,
    normal: &Normal,
    questions: &[Question],
) -> Result<bool, NoMemory>
    requires normal { IsNormal normal.now }
    requires form { IsNormalFormOf normal.now program.now }
{
    match Scene::open(alloc, program, normal)? {
        None => Ok(false),
        Some(mut scene) => are_all_answered(alloc, &mut scene, questions),
    }
}

fn is_shown(alloc: Global, worked: &Worked) -> Result<bool, NoMemory> {
    let Some(program) = program_of(alloc, worked.text) else {
        return Ok(false);
    };
    match normalise(alloc, &program) {
        Err(_) => Ok(false),
        Ok(normal) => are_answered_for(alloc, &program, &normal, worked.questions),
    }
}

#[test]
fn worked_questions_get_their_answers(rt: HostRuntime) -> Result<(), Fail> {
    for worked in &WORKED {
        assert!(rt; is_shown(rt.alloc(), worked)?, "{}", worked.shows);
    }
    Ok(())
}
