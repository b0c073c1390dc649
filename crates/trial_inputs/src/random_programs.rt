// Programs of random rules.
ghost use Rattle.std.specs.Prelude.{IfOk, IfSome};
ghost use Rattle.ground_program.specs.Program.{IsProgram};

use crate::draws::Draws;
use ground_program::{
    AtomLit, Atoms, Body, Heads, Kind, Name, Named, Names, Program, Rule, Rules, Weighted,
    greatest_atom, is_valid,
};
use item_list::NoMemory;
use std::alloc::Global;

/// What random programs are made of.
#[derive(Debug, Drop)]
pub struct Recipe {
    /// The greatest atom that may occur.
    pub atoms: u32,
    /// How many rules there are.
    pub rules: u32,
    /// The kinds that they are drawn from.
    pub kinds: &'static [Kind],
    /// How many atoms have names, from atom 1 on.
    pub names: u32,
}

/// A program by a recipe. None is a recipe whose numbers are too great, or that has no kinds.
pub fn random_program(
    alloc: Global,
    recipe: &Recipe,
    draws: &mut Draws,
) -> Result<Option<Program>, NoMemory>
    ensures { IfOk result (λ it. IfSome it IsProgram) }
{
    let rules = random_rules(alloc, recipe, draws)?;
    let names = first_names(alloc, recipe.names)?;
    let must_not = seldom_an_atom(alloc, recipe, draws)?;
    let mut program = Program {
        atoms: 0,
        rules,
        names,
        must: Atoms::open(),
        must_not,
        models: 1,
    };
    program.atoms = greatest_atom(&program);
    if is_valid(&program) {
        Ok(Some(program))
    } else {
        Ok(None)
    }
}

fn random_rules(alloc: Global, recipe: &Recipe, draws: &mut Draws) -> Result<Rules, NoMemory> {
    let mut rules = Rules::open();
    for _ in 0..recipe.rules {
        let rule = random_rule(alloc, recipe, draws)?;
        rules.push(alloc, rule)?;
    }
    Ok(rules)
}

/// The names of the first atoms: all the same.
fn first_names(alloc: Global, count: u32) -> Result<Names, NoMemory> {
    let mut names = Names::open();
    for at in 0..count {
        let name = Name::from_slice(alloc, b"a")?;
        names.push(
            alloc,
            Named {
                atom: at.saturating_add(1),
                name,
            },
        )?;
    }
    Ok(names)
}

/// One atom out of four times, else none.
fn seldom_an_atom(alloc: Global, recipe: &Recipe, draws: &mut Draws) -> Result<Atoms, NoMemory> {
    if draws.up_to(3) == 0 {
        Atoms::from_slice(alloc, &[random_atom(recipe, draws)])
    } else {
        Ok(Atoms::open())
    }
}

fn random_atom(recipe: &Recipe, draws: &mut Draws) -> u32 {
    draws
        .up_to(recipe.atoms.saturating_sub(1))
        .saturating_add(1)
}

fn random_kind(recipe: &Recipe, draws: &mut Draws) -> Kind {
    let most = u32::try_from(recipe.kinds.len()).unwrap_or(0);
    let at = draws.up_to(most.saturating_sub(1)) as usize;
    recipe.kinds.get(at).copied().unwrap_or(Kind::Basic)
}

fn random_rule(alloc: Global, recipe: &Recipe, draws: &mut Draws) -> Result<Rule, NoMemory> {
    let kind = random_kind(recipe, draws);
    let heads = random_heads(alloc, recipe, kind, draws)?;
    let body = random_body(alloc, recipe, kind, draws)?;
    let bound = match kind {
        Kind::Constraint => draws.up_to(3),
        Kind::Weight => draws.up_to(5),
        Kind::Basic | Kind::Choice | Kind::Disjunctive => u32::try_from(body.len()).unwrap_or(0),
    };
    Ok(Rule {
        kind,
        bound,
        heads,
        body,
    })
}

/// One head, or for the kinds that may have more, up to three.
fn random_heads(
    alloc: Global,
    recipe: &Recipe,
    kind: Kind,
    draws: &mut Draws,
) -> Result<Heads, NoMemory> {
    let mut heads = Heads::one(random_atom(recipe, draws));
    let more = match kind {
        Kind::Choice | Kind::Disjunctive => draws.up_to(2),
        Kind::Basic | Kind::Constraint | Kind::Weight => 0,
    };
    for _ in 0..more {
        heads.push(alloc, random_atom(recipe, draws))?;
    }
    Ok(heads)
}

/// Up to one negative literal, and up to two positive ones.
fn random_body(
    alloc: Global,
    recipe: &Recipe,
    kind: Kind,
    draws: &mut Draws,
) -> Result<Body, NoMemory> {
    let mut body = Body::open();
    let negatives = draws.up_to(1);
    let positives = draws.up_to(2);
    for at in 0..negatives + positives {
        let lit = AtomLit {
            atom: random_atom(recipe, draws),
            negated: at < negatives,
        };
        let weight = random_weight(kind, draws);
        body.push(alloc, Weighted { lit, weight })?;
    }
    Ok(body)
}

/// Up to 3 in a weight rule, and else 1.
fn random_weight(kind: Kind, draws: &mut Draws) -> u32 {
    match kind {
        Kind::Weight => draws.up_to(3),
        Kind::Basic | Kind::Constraint | Kind::Choice | Kind::Disjunctive => 1,
    }
}
