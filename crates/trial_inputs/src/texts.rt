// From a text to a program and to its normal form.
ghost use Rattle.std.specs.Prelude.{IfSome};
ghost use Rattle.ground_program.specs.Program.{IsProgram};
ghost use Rattle.normal_program.specs.Limit.{IsNormal};

use clause_store::{Clause, Lit};
use ground_program::Program;
use item_list::NoMemory;
use lparse_reader::parse;
use normal_program::Normal;
use rule_normaliser::normalise;
use std::alloc::Global;

/// The program of a text. None is a text that is too long or refused, or want of memory.
pub fn program_of(alloc: Global, text: &[u8]) -> Option<Program>
    ensures { IfSome result IsProgram }
{
    if text.len() > 67108864 {
        return None;
    }
    parse(alloc, text).ok()
}

/// The normal form of a text. None is a text without a program or with too many variables, or want
/// of memory.
pub fn normal_of(alloc: Global, text: &[u8]) -> Option<Normal>
    ensures { IfSome result IsNormal }
{
    let program = program_of(alloc, text)?;
    normalise(alloc, &program).ok()
}

/// The clause of these literals, by their codes.
pub fn clause_of(alloc: Global, codes: &[u32]) -> Result<Clause, NoMemory> {
    let mut clause = Clause::open();
    for code in codes {
        clause.push(alloc, Lit(*code))?;
    }
    Ok(clause)
}
