// Random programs, without disjunctive rules and with some, and questions about them whose answers
// are compared with the definition.
ghost use Rattle.normal_program.specs.Limit.{IsNormal};
ghost use Rattle.normal_program.specs.Normal.{IsNormalFormOf};
ghost use Rattle.trial_coherence.specs.Ready.{IsReady};

use crate::trials::handing::hands_on;
use crate::trials::recipes::{DISJUNCTIVE, PLAIN};
use crate::trials::scene::Scene;
use crate::trials::tallies::Stops;
use clause_store::{Clause, Lit};
use coherence_test::Asked;
use ground_program::Program;
use item_list::NoMemory;
use normal_program::Normal;
use rule_normaliser::normalise;
use std::alloc::Global;
use std::test::Fail;
use trial_inputs::{Draws, Recipe, clause_of, random_program};

/// What came of programs.
#[derive(Drop)]
struct Outcome {
    /// How many programs had a wrong answer, or none.
    wrong: u32,
    /// How many testers handed on what they must not, or not what they must.
    misled: u32,
    stops: Stops,
    answer_sets: usize,
}

impl Outcome {
    fn none() -> Outcome {
        Outcome {
            wrong: 0,
            misled: 0,
            stops: Stops::none(),
            answer_sets: 0,
        }
    }

    fn fail(&mut self) {
        self.wrong = self.wrong.saturating_add(1);
    }

    fn mislead(&mut self) {
        self.misled = self.misled.saturating_add(1);
    }

    /// Adds what came of one scene.
    fn add(&mut self, scene: &Scene, shown: Shown) {
        if !shown.right {
            self.fail();
        }
        if !shown.handed_on {
            self.mislead();
        }
        self.stops.add(scene.stops);
        self.answer_sets = self.answer_sets.saturating_add(scene.extensions.len());
    }
}

/// Whether all questions to a tester are answered rightly, and it hands on what it is to.
#[derive(Drop, Clone, Copy)]
pub struct Shown {
    pub right: bool,
    pub handed_on: bool,
}

/// So many random literals over atoms and bodies.
fn random_lits(
    alloc: Global,
    greatest: u32,
    count: u32,
    draws: &mut Draws,
) -> Result<Clause, NoMemory> {
    let most = greatest.saturating_mul(2).saturating_sub(1);
    let mut lits = Clause::open();
    for _ in 0..count {
        lits.push(alloc, Lit(draws.up_to(most).saturating_add(2)))?;
    }
    Ok(lits)
}

/// Whether the literal of a code, where it is one of an atom or a body, is answered rightly.
fn is_literal_answered(alloc: Global, scene: &mut Scene, code: u32) -> Result<bool, NoMemory>
    requires { IsReady scene.old.program.now scene.old.normal.now scene.old.tester }
    ensures { IsReady scene.new.program.now scene.new.normal.now scene.new.tester }
{
    if code / 2 > scene.greatest() {
        return Ok(true);
    }
    let assume = clause_of(alloc, &[code])?;
    scene.answers(alloc, &Asked { assume, any: None })
}

/// Whether each literal of an atom or a body is answered rightly.
pub fn is_each_literal_answered(alloc: Global, scene: &mut Scene) -> Result<bool, NoMemory>
    requires { IsReady scene.old.program.now scene.old.normal.now scene.old.tester }
    ensures { IsReady scene.new.program.now scene.new.normal.now scene.new.tester }
{
    for code in 2..64u32 {
        if !is_literal_answered(alloc, scene, code)? {
            return Ok(false);
        }
    }
    Ok(true)
}

/// A list of up to 3 literals, and every other time a disjunction of one or two variables.
fn random_question(
    alloc: Global,
    greatest: u32,
    turn: u32,
    draws: &mut Draws,
) -> Result<Asked, NoMemory> {
    let assume = random_lits(alloc, greatest, turn % 4, draws)?;
    let one = draws.up_to(greatest.saturating_sub(1)).saturating_add(1);
    let any = if turn % 2 == 0 {
        None
    } else {
        Some(random_disjunction(alloc, greatest, one, draws)?)
    };
    Ok(Asked { assume, any })
}

/// A disjunction of a literal of this variable and, where it isn't the last, of one of the next.
fn random_disjunction(
    alloc: Global,
    greatest: u32,
    var: u32,
    draws: &mut Draws,
) -> Result<Clause, NoMemory> {
    let code = var.saturating_mul(2);
    let mut any = clause_of(alloc, &[code.saturating_add(draws.up_to(1))])?;
    if var < greatest {
        any.push(alloc, Lit(code.saturating_add(2 + draws.up_to(1))))?;
    }
    Ok(any)
}

/// Whether random questions are answered rightly.
fn are_lists_answered(alloc: Global, scene: &mut Scene, draws: &mut Draws) -> Result<bool, NoMemory>
    requires { IsReady scene.old.program.now scene.old.normal.now scene.old.tester }
    ensures { IsReady scene.new.program.now scene.new.normal.now scene.new.tester }
{
    for turn in 0..12u32 {
        let asked = random_question(alloc, scene.greatest(), turn, draws)?;
        if !scene.answers(alloc, &asked)? {
            return Ok(false);
        }
    }
    Ok(true)
}

/// Asks all questions of a scene. What is counted is handed on after the lists and after all.
pub fn ask_all(alloc: Global, scene: &mut Scene, draws: &mut Draws) -> Result<Shown, NoMemory>
    requires { IsReady scene.old.program.now scene.old.normal.now scene.old.tester }
{
    let lists = are_lists_answered(alloc, scene, draws)?;
    let early = hands_on(alloc, scene)?;
    let each = is_each_literal_answered(alloc, scene)?;
    let late = hands_on(alloc, scene)?;
    Ok(Shown {
        right: lists && each,
        handed_on: early && late,
    })
}

/// Asks all questions about a program.
fn ask_about(
    alloc: Global,
    program: &Program,
    normal: &Normal,
    draws: &mut Draws,
    outcome: &mut Outcome,
) -> Result<(), NoMemory>
    requires normal { IsNormal normal.now }
    requires form { IsNormalFormOf normal.now program.now }
{
    let Some(mut scene) = Scene::open(alloc, program, normal)? else {
        outcome.fail();
        return Ok(());
    };
    let shown = ask_all(alloc, &mut scene, draws)?;
    outcome.add(&scene, shown);
    Ok(())
}

/// Asks all questions about one random program.
fn ask_random(
    alloc: Global,
    recipe: &Recipe,
    draws: &mut Draws,
    outcome: &mut Outcome,
) -> Result<(), NoMemory> {
    let Some(program) = random_program(alloc, recipe, draws)? else {
        outcome.fail();
        return Ok(());
    };
    match normalise(alloc, &program) {
        Err(_) => {
            outcome.fail();
            Ok(())
        }
        Ok(normal) => ask_about(alloc, &program, &normal, draws, outcome),
    }
}

/// Asks all questions about so many random programs.
fn outcome_of(alloc: Global, recipe: &Recipe, programs: u32) -> Result<Outcome, NoMemory> {
    let mut draws = Draws::of(1);
    let mut outcome = Outcome::none();
    for _ in 0..programs {
        ask_random(alloc, recipe, &mut draws, &mut outcome)?;
    }
    Ok(outcome)
}

#[test]
fn random_programs_are_tested_as_the_definition_says(rt: HostRuntime) -> Result<(), Fail> {
    let outcome = outcome_of(rt.alloc(), &PLAIN, 100)?;
    assert!(rt; outcome.wrong == 0, "{} wrong", outcome.wrong);
    assert!(rt; outcome.misled == 0, "{} misled", outcome.misled);
    let stops = &outcome.stops;
    assert!(rt;
        stops.outside > 10 && stops.inside == 0 && outcome.answer_sets > 100,
        "{} stops, {} inside, {} answer sets",
        stops.outside,
        stops.inside,
        outcome.answer_sets
    );
    Ok(())
}

#[test]
fn disjunctive_programs_are_tested_as_the_definition_says(rt: HostRuntime) -> Result<(), Fail> {
    let outcome = outcome_of(rt.alloc(), &DISJUNCTIVE, 100)?;
    assert!(rt; outcome.wrong == 0, "{} wrong", outcome.wrong);
    assert!(rt; outcome.misled == 0, "{} misled", outcome.misled);
    let stops = &outcome.stops;
    assert!(rt;
        stops.outside > 10 && outcome.answer_sets > 100,
        "{} stops, {} answer sets",
        stops.outside,
        outcome.answer_sets
    );
    Ok(())
}
