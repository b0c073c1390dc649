// Texts from a source.
ghost use Rattle.std.specs.Prelude.{◌≡◌, ◌≤◌, ◌<◌, ◌+◌, ℕ, [], Some, length, drop, IfOk, IfSome};
ghost use Rattle.std.specs.Prelude.{IsErrOf};
ghost use Rattle.ground_program.specs.declared.program.Program.{Program};
ghost use Rattle.ground_program.specs.Program.{IsProgram};
ghost use Rattle.byte_edges.specs.Faults.{Rose};
ghost use Rattle.byte_edges.specs.Edges.{TookUpTo};
ghost use Rattle.lparse_reader.specs.declared.fault.TextFault.{TextFault};
ghost use Rattle.lparse_reader.specs.Pieces.{Reads};
ghost use Rattle.lparse_reader.specs.Refuses.{Refuses, IsTextUnlessSource, IsOfSomeText};
ghost use Rattle.lparse_reader.specs.Refusal.{IsProgramUnlessSource, OnText};

use crate::fault::ReadError;
use crate::whole_text::parse;
use byte_edges::{InputError, Source, read_all};
use ground_program::Program;
use std::alloc::Global;

/// How many bytes a text may have.
const LONGEST: u64 = 67_108_864;

/// The program of all bytes that a source has left, or the first thing that is wrong with them.
pub fn read_program<S: Source>(alloc: Global, source: &mut S) -> Result<Program, ReadError>
    ensures valid { IfOk result IsProgram }

    // What is told is true of some text, and where the source told what it had left, of that: it
    // reads as the program, it is refused so, or it is too long.
    ensures outcome { IsOfSomeText (S.left source.old) result }

    // A program and a fault of the text come once all bytes were taken.
    ensures end { OnText result (IfSome (S.left source.old) (λ _. S.left source.new ≡ Some [])) }

    // What stands in the text is read, unless the source fails or memory runs out.
    ensures all_read { IfSome (S.left source.old)
        (λ bytes. (program : Program) → length bytes ≤ 67108864
        → Reads bytes program → IsProgramUnlessSource result program) }

    // A text that is refused is told so, unless the source fails or memory runs out.
    ensures all_refused { IfSome (S.left source.old)
        (λ bytes. (why : TextFault) (line value : ℕ) → length bytes ≤ 67108864
        → Refuses bytes why line value → IsTextUnlessSource result why line value) }

    // A fault of the source comes before more than 67,108,864 bytes were taken.
    ensures read_fault { IsErrOf result ReadError.ReadFault
        → Rose (S.faults source.old) (S.faults source.new) }
    ensures fault_within { IsErrOf result ReadError.ReadFault
        → IfSome (S.left source.old) (TookUpTo 67108864 (S.left source.new)) }

    // 67,108,864 bytes were taken and one more.
    ensures too_long { IsErrOf result ReadError.TooLong → IfSome (S.left source.old)
        (λ left. (67108864 < length left) × (S.left source.new ≡ Some (drop 67108865 left))) }

    // What was taken stays taken, whatever the answer.
    ensures taken { IfSome (S.left source.old) (TookUpTo 67108865 (S.left source.new)) }
    ensures count { S.faults source.old ≤ S.faults source.new }
{
    match read_all(alloc, source, LONGEST) {
        Ok(bytes) => parse(alloc, &bytes),
        Err(InputError::TooLong) => Err(ReadError::TooLong),
        Err(InputError::ReadFault) => Err(ReadError::ReadFault),
        Err(InputError::NoMemory) => Err(ReadError::NoMemory),
    }
}
