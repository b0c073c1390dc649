// The normal form of a program, unless it has too many variables.
ghost use Rattle.std.specs.Prelude.{◌≡◌, ◌≤◌, ◌<◌, ◌+◌, ◌^◌, length, IfOk, IfErr};
ghost use Rattle.ground_program.specs.Program.{IsProgram};
ghost use Rattle.normal_program.specs.Normal.{IsNormalFormOf, AreNumbered, variables, SameBodies};
ghost use Rattle.normal_program.specs.Normal.{SameAnswerSets};
ghost use Rattle.rule_normaliser.specs.Cause.{IsCauseOf};

use crate::numbering::{Numbered, listed, number_rules};
use crate::{MOST_VARIABLES, Normal, NormalError};
use ground_program::Program;
use item_list::NoMemory;
use std::alloc::Global;

/// The normal form of a program. Its rules stand for those of the program, one by one.
pub fn normalise(alloc: Global, program: &Program) -> Result<Normal, NormalError>
    requires { IsProgram program.now }
    ensures form { IfOk result (λ normal. IsNormalFormOf normal program.now) }
    ensures within { IfOk result (λ normal. variables normal ≤ MOST_VARIABLES) }

    // So the bodies hold for the same pairs of sets, and the answer sets are the same.
    ensures bodies { IfOk result (λ normal. SameBodies normal program.now) }
    ensures same { IfOk result (λ normal. SameAnswerSets normal program.now) }

    // Only a normal form with more variables is refused, by their number.
    ensures refused { IfErr result (IsCauseOf program.now) }
{
    let numbered = number_rules(alloc, program.rules.as_slice())?;
    let count = variable_count(program, numbered.bodies.len());
    if count > MOST_VARIABLES {
        return Err(NormalError::TooManyVariables(count));
    }
    let normal = assemble(alloc, program, numbered)?;
    Ok(normal)
}

// The number of variables of a program with so many bodies.
fn variable_count(program: &Program, bodies: usize) -> u64
    requires program { IsProgram program.now }
    requires bodies { bodies < 2 ^ 63 }
    ensures { result ≡ program.now.atoms + bodies + length program.now.names + 1 }
{
    u64::from(program.atoms) + bodies as u64 + program.names.len() as u64 + 1
}

// The numbered rules, with the rest of the program.
fn assemble(alloc: Global, program: &Program, numbered: Numbered) -> Result<Normal, NoMemory>
    requires { AreNumbered numbered.bodies.keys numbered.rules program.now.rules }
    ensures form { IfOk result (λ normal. IsNormalFormOf normal program.now) }
    ensures bodies { IfOk result (λ normal. normal.bodies ≡ numbered.bodies.keys) }
{
    let Numbered { bodies, rules } = numbered;
    let bodies = listed(alloc, bodies)?;
    let names = program.names.copy(alloc)?;
    let must = program.must.copy(alloc)?;
    let must_not = program.must_not.copy(alloc)?;
    Ok(Normal {
        atoms: program.atoms,
        bodies,
        rules,
        names,
        must,
        must_not,
    })
}
