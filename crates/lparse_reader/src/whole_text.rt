// Whole texts.
ghost use Rattle.std.specs.Prelude.{◌≡◌, ◌≤◌, ℕ, length, IfOk, IfErr};
ghost use Rattle.ground_program.specs.declared.program.Program.{Program};
ghost use Rattle.lparse_reader.specs.Fields.{ReadsAs};
ghost use Rattle.lparse_reader.specs.Reading.{program_at, made};
ghost use Rattle.lparse_reader.specs.declared.fault.TextFault.{TextFault};
ghost use Rattle.lparse_reader.specs.Pieces.{Reads};
ghost use Rattle.lparse_reader.specs.Refuses.{Refuses, IsRefused, IsTextUnlessNoMemory};
ghost use Rattle.lparse_reader.specs.Tokens.{line_at};
ghost use Rattle.lparse_reader.specs.Refusal.{IsReadAnswer, IsProgramUnlessNoMemory, told};

use crate::compute_text::read_atoms_to_end;
use crate::fault::{Fault, ReadError, Stop, TextFault};
use crate::rule_text::read_rules;
use crate::symbol_text::read_names;
use crate::token_text::{read_end, read_mark, read_models};
use ground_program::{Atoms, Names, Program, Rules, greatest_atom};
use std::alloc::Global;

/// The program of a text, or the first thing that is wrong with it.
pub fn parse(alloc: Global, bytes: &[u8]) -> Result<Program, ReadError>
    requires { length bytes.now ≤ 67108864 }
    // What is read stands in the text.
    ensures read { IfOk result (Reads bytes.now) }
    // What stands in the text is read, unless memory runs out.
    ensures all_read { (program : Program) → Reads bytes.now program
        → IsProgramUnlessNoMemory result program }
    // What is told is why the text is refused, and what is refused is told so, unless memory runs
    // out.
    ensures refused { IfErr result (IsRefused bytes.now) }
    ensures all_refused { (why : TextFault) (line value : ℕ) → Refuses bytes.now why line value
        → IsTextUnlessNoMemory result why line value }
{
    parse_whole(alloc, bytes)
}

/// The program of a text, or its first fault as it is told.
fn parse_whole(alloc: Global, bytes: &[u8]) -> Result<Program, ReadError>
    requires { length bytes.now ≤ 67108864 }
    ensures { IsReadAnswer bytes.now result (program_at bytes.now) }
{
    match read_fields(alloc, bytes) {
        Ok(program) => Ok(program),
        Err(Stop::Fault(fault)) => Err(refusal_of(bytes, fault)),
        Err(Stop::NoMemory) => Err(ReadError::NoMemory),
    }
}

/// What a fault in these bytes is told as.
fn refusal_of(bytes: &[u8], fault: Fault) -> ReadError
    requires { length bytes.now ≤ 67108864 }
    ensures { result ≡ told bytes.now fault }
{
    match fault {
        Fault::Ended => ReadError::Text {
            why: TextFault::EndOfInput,
            line: line_of_place(bytes, 0),
            value: bytes.len() as u64,
        },
        Fault::At { why, left, value } => ReadError::Text {
            why,
            line: line_of_place(bytes, left),
            value,
        },
    }
}

/// The line of the byte that has `left` bytes from it on.
fn line_of_place(bytes: &[u8], left: usize) -> u32
    requires { length bytes.now ≤ 67108864 }
    ensures { result ≡ line_at bytes.now left }
{
    let place = bytes.len().saturating_sub(left);
    let feeds = bytes[..place].iter().filter(|byte| **byte == b'\n').count();
    1 + feeds as u32
}

/// The program of a text, or the first fault.
#[tactic(auto, unfolding(crate::specs::Reading::program_at))]
fn read_fields(alloc: Global, bytes: &[u8]) -> Result<Program, Stop>
    ensures { ReadsAs (λ x. x) result (program_at bytes.now) }
{
    let (rules, rest) = read_rules(alloc, bytes)?;
    let (names, rest) = read_names(alloc, rest)?;
    let rest = read_mark(b'+', 1, rest)?;
    let (must, rest) = read_atoms_to_end(alloc, rest)?;
    let rest = read_mark(b'-', 2, rest)?;
    let (must_not, rest) = read_atoms_to_end(alloc, rest)?;
    let (models, rest) = read_models(rest)?;
    read_end(rest)?;
    Ok(made_of(rules, names, must, must_not, models))
}

/// The program of these parts.
fn made_of(rules: Rules, names: Names, must: Atoms, must_not: Atoms, models: u32) -> Program
    ensures { result ≡ made rules names must must_not models }
{
    let mut program = Program {
        atoms: 0,
        rules,
        names,
        must,
        must_not,
        models,
    };
    program.atoms = greatest_atom(&program);
    program
}
