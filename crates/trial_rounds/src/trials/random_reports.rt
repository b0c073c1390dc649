// Reports on random programs are legal by the definition, with every strategy, budget and slice.
ghost use Rattle.std.specs.Prelude.{◌<◌};
ghost use Rattle.ground_program.specs.Program.{IsProgram};
ghost use Rattle.run_words.specs.Words.{AreSettings, IsAlone};

use crate::trials::report_rules::{Ending, Query};
use crate::trials::runs::{Edges, lines_of, run_over, settings_of, text_of};
use crate::trials::truth::Truth;
use ground_program::{Kind, Program};
use item_list::NoMemory;
use run_words::Settings;
use std::alloc::Global;
use std::test::Fail;
use trial_inputs::{Draws, Recipe, random_program};

/// How many runs there are over one program. They go through all settings.
const RUNS: u32 = 8;

static ALL_KINDS: Recipe = Recipe {
    atoms: 6,
    rules: 9,
    kinds: &[
        Kind::Basic,
        Kind::Constraint,
        Kind::Choice,
        Kind::Weight,
        Kind::Disjunctive,
    ],
    names: 6,
};

static DISJUNCTIONS: Recipe = Recipe {
    atoms: 7,
    rules: 20,
    kinds: &[
        Kind::Disjunctive,
        Kind::Choice,
        Kind::Disjunctive,
        Kind::Weight,
    ],
    names: 7,
};

/// How the reports ended.
#[derive(Drop)]
struct Tally {
    complete: u32,
    open: u32,
    unknown: u32,
    incoherent: u32,
    /// How many weren't legal.
    wrong: u32,
}

impl Tally {
    fn none() -> Tally {
        Tally {
            complete: 0,
            open: 0,
            unknown: 0,
            incoherent: 0,
            wrong: 0,
        }
    }

    fn add(&mut self, ending: Option<Ending>) {
        let count = match ending {
            Some(Ending::Complete) => &mut self.complete,
            Some(Ending::Open) => &mut self.open,
            Some(Ending::Unknown) => &mut self.unknown,
            Some(Ending::Incoherent) => &mut self.incoherent,
            None => &mut self.wrong,
        };
        *count = count.saturating_add(1);
    }
}

/// How the report of one run ends.
fn ending_of(
    alloc: Global,
    program: &Program,
    truth: &Truth,
    text: &[u8],
    settings: &Settings,
) -> Result<Option<Ending>, NoMemory>
    requires program { IsProgram program.now }
    requires settings { AreSettings settings.now }
    requires alone { IsAlone settings.now }
{
    let run = run_over(alloc, text, settings, Edges::steady(alloc, 100))?;
    let Some(lines) = lines_of(alloc, program, run.text.as_slice())? else {
        return Ok(None);
    };
    let query = Query {
        program,
        truth,
        mode: settings.mode,
        budget: settings.budget,
    };
    Ok(query.judge(lines.as_slice(), run.ended.status, run.ended.spent.len()))
}

/// Runs over one program, with the settings from this number on.
fn run_all(alloc: Global, program: &Program, first: u32, tally: &mut Tally) -> Result<(), NoMemory>
    requires program { IsProgram program.now }
    requires few { program.now.atoms < 32 }
{
    let text = text_of(alloc, program)?;
    let truth = Truth::of(alloc, program)?;
    for number in 0..RUNS {
        let settings = settings_of(first.wrapping_add(number));
        tally.add(ending_of(alloc, program, &truth, text.as_slice(), &settings)?);
    }
    Ok(())
}

/// Runs over one random program.
fn run_random(
    alloc: Global,
    recipe: &Recipe,
    draws: &mut Draws,
    first: u32,
    tally: &mut Tally,
) -> Result<(), NoMemory> {
    match random_program(alloc, recipe, draws)? {
        Some(program) if program.atoms < 8 => run_all(alloc, &program, first, tally),
        _ => {
            tally.add(None);
            Ok(())
        }
    }
}

/// How the reports on so many random programs end.
fn tally_of(alloc: Global, recipe: &Recipe, programs: u32) -> Result<Tally, NoMemory> {
    let mut draws = Draws::of(5);
    let mut tally = Tally::none();
    for at in 0..programs {
        run_random(alloc, recipe, &mut draws, at.wrapping_mul(RUNS), &mut tally)?;
    }
    Ok(tally)
}

impl Tally {
    /// All were legal, and there were some that ended in each way.
    fn has_each(&self) -> bool {
        self.wrong == 0 && self.complete > 40 && self.open > 0 && self.unknown > 0
    }
}

/// Reports on programs with all kinds of rules are legal, and end in each way.
fn all_kinds_are_told_rightly(alloc: Global) -> Result<bool, NoMemory> {
    let tally = tally_of(alloc, &ALL_KINDS, 24)?;
    Ok(tally.has_each() && tally.incoherent > 0)
}

fn disjunctions_are_told_rightly(alloc: Global) -> Result<bool, NoMemory> {
    let tally = tally_of(alloc, &DISJUNCTIONS, 12)?;
    Ok(tally.has_each())
}

#[test]
fn reports_on_all_kinds_of_rules_are_legal(rt: HostRuntime) -> Result<(), Fail> {
    assert!(rt; all_kinds_are_told_rightly(rt.alloc())?);
    Ok(())
}

#[test]
fn reports_on_disjunctions_are_legal(rt: HostRuntime) -> Result<(), Fail> {
    assert!(rt; disjunctions_are_told_rightly(rt.alloc())?);
    Ok(())
}
