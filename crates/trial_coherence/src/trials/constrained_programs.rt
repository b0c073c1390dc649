// Random programs in which 2 to 11 may be chosen, and 1, which must be false, follows from random
// bodies of three or four literals, beside a few random rules of all kinds but the disjunctive one.
// Their testers count clauses of all lengths.
ghost use Rattle.std.specs.Prelude.{IfOk, IfSome};
ghost use Rattle.ground_program.specs.Program.{IsProgram};

use ground_program::{AtomLit, Atoms, Body, Heads, Kind, Program, Rule, Rules, Weighted, is_valid};
use item_list::NoMemory;
use std::alloc::Global;
use trial_inputs::{Draws, Recipe, random_program};

/// The greatest atom.
const ATOMS: u32 = 11;

/// How many bodies there are. With more of them few programs have answer sets.
const BODIES: u32 = 44;

/// The rules beside these. All atoms have names, so that selectors are left.
static OTHERS: Recipe = Recipe {
    atoms: ATOMS,
    rules: 4,
    kinds: &[Kind::Basic, Kind::Constraint, Kind::Choice, Kind::Weight],
    names: ATOMS,
};

/// The next of these programs. There is always one.
pub fn constrained_program(alloc: Global, draws: &mut Draws) -> Result<Option<Program>, NoMemory>
    ensures { IfOk result (λ it. IfSome it IsProgram) }
{
    let Some(mut program) = random_program(alloc, &OTHERS, draws)? else {
        return Ok(None);
    };
    put_rules(alloc, draws, &mut program.rules)?;
    program.atoms = ATOMS;
    program.must_not = Atoms::from_slice(alloc, &[1])?;
    if is_valid(&program) {
        Ok(Some(program))
    } else {
        Ok(None)
    }
}

/// Puts the choice and the random bodies last.
fn put_rules(alloc: Global, draws: &mut Draws, rules: &mut Rules) -> Result<(), NoMemory> {
    let choice = choice(alloc)?;
    rules.push(alloc, choice)?;
    for _ in 0..BODIES {
        let constraint = constraint(alloc, draws)?;
        rules.push(alloc, constraint)?;
    }
    Ok(())
}

/// All atoms but 1 may be chosen.
fn choice(alloc: Global) -> Result<Rule, NoMemory> {
    let mut heads = Heads::one(2);
    for atom in 3..ATOMS + 1 {
        heads.push(alloc, atom)?;
    }
    Ok(Rule {
        kind: Kind::Choice,
        bound: 0,
        heads,
        body: Body::open(),
    })
}

/// 1 follows from three or four literals, of which the negative ones come first.
fn constraint(alloc: Global, draws: &mut Draws) -> Result<Rule, NoMemory> {
    let mut body = Body::open();
    let length = draws.up_to(1).saturating_add(3);
    let negatives = draws.up_to(length);
    for at in 0..length {
        let lit = AtomLit {
            atom: draws.up_to(ATOMS - 2).saturating_add(2),
            negated: at < negatives,
        };
        body.push(alloc, Weighted { lit, weight: 1 })?;
    }
    Ok(Rule {
        kind: Kind::Basic,
        bound: length,
        heads: Heads::one(1),
        body,
    })
}
