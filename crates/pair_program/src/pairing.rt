// The pair program of a normal form.
ghost use Rattle.std.specs.Prelude.{◌≡◌, length, IfOk, IfErr};
ghost use Rattle.normal_program.specs.Limit.{IsNormal};
ghost use Rattle.normal_program.specs.Range.{IsInRange};
ghost use Rattle.pair_program.specs.Pairs.{IsPairProgram, FitsFormat, IsCauseOf};
ghost use Rattle.pair_program.specs.Rules.{rules_of, program_of};

use crate::PairError;
use crate::atom_rules::{free_rule, push_atoms, push_proper};
use crate::body_rules::push_bodies;
use crate::head_rules::push_rules;
use crate::pair_atoms::PairAtoms;
use crate::sizes::fits_format;
use ground_program::{Atoms, Names, Program, Rules};
use item_list::NoMemory;
use normal_program::Normal;
use std::alloc::Global;

/// The pair program of a normal form. Its models are the pairs of a set and a proper subset of it
/// that keeps the rules of the reduct by the set.
pub fn pairs_of(alloc: Global, normal: &Normal) -> Result<Program, PairError>
    requires { IsNormal normal.now }
    ensures is { IfOk result (IsPairProgram normal.now) }

    // Just those normal forms are refused whose pair program the format can't write.
    ensures fits { IfOk result (λ _. FitsFormat normal.now) }
    ensures refused { IfErr result (IsCauseOf normal.now) }
{
    if !fits_format(normal) {
        return Err(PairError::TooLarge);
    }
    let program = program_of(alloc, normal)?;
    Ok(program)
}

// The program of the rules, in which the last atom must not be true.
fn program_of(alloc: Global, normal: &Normal) -> Result<Program, NoMemory>
    requires range { IsInRange normal.now }
    requires fits { FitsFormat normal.now }
    ensures { IfOk result (λ program. program ≡ program_of normal.now) }
{
    let atoms = PairAtoms {
        atoms: normal.atoms,
        bodies: normal.bodies.len() as u32,
    };
    let rules = rules_of(alloc, atoms, normal)?;
    let mut must_not = Atoms::open();
    must_not.push(alloc, atoms.last())?;
    Ok(Program {
        atoms: atoms.last(),
        rules,
        names: Names::open(),
        must: Atoms::open(),
        must_not,
        models: 1,
    })
}

// All rules in order.
fn rules_of(alloc: Global, atoms: PairAtoms, normal: &Normal) -> Result<Rules, NoMemory>
    requires range { IsInRange normal.now }
    requires fits { FitsFormat normal.now }
    requires atoms { atoms.atoms ≡ normal.now.atoms }
    requires bodies { atoms.bodies ≡ length normal.now.bodies }
    ensures { IfOk result (λ rules. rules ≡ rules_of normal.now) }
{
    let mut rules = Rules::open();
    let free = free_rule(alloc, atoms)?;
    rules.push(alloc, free)?;
    push_bodies(alloc, atoms, normal.bodies.as_slice(), &mut rules)?;
    push_rules(alloc, atoms, normal.rules.as_slice(), &mut rules)?;
    push_atoms(alloc, atoms, &mut rules)?;
    push_proper(alloc, atoms, &mut rules)?;
    Ok(rules)
}
