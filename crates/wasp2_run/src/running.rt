// One query over a source.
ghost use Rattle.std.specs.Prelude.{◌≡◌, ◌≢◌, ◌⊎◌, [], Some, IfSome, IfOk};
ghost use Rattle.byte_edges.specs.Faults.{Rose};
ghost use Rattle.ground_program.specs.Program.{IsProgram};
ghost use Rattle.lparse_reader.specs.Refuses.{IsOfSomeText};
ghost use Rattle.run_words.specs.Words.{AreSettings, IsAlone};
ghost use Rattle.query_run.specs.Answers.{Ends};
ghost use Rattle.wasp2_run.specs.Run.{HasAnswered, IsAllowed, IsAnsweredBy, IsDecidedAs};
ghost use Rattle.wasp2_run.specs.Run.{IsRefusalOf, IsSizeRefusalOf, QueryRow, Ran, why_of};

use crate::refusal_line::{refuse, tell_no_memory, without_tests};
use byte_edges::{Sink, Source, WriteFault};
use ground_program::Program;
use lparse_reader::{ReadError, TextFault, read_program};
use query_run::{Ended, answer_query};
use report::Why;
use rule_normaliser::{NormalError, normalise};
use run_words::Settings;
use std::alloc::Global;

// How many bytes an input may have.
const MOST_BYTES: u64 = 67108864;

/// Reads a program from the source and writes the report on it to the sink, by one worker with no
/// watcher.
pub fn run_one<S: Source, K: Sink>(
    alloc: Global,
    settings: &Settings,
    source: &mut S,
    sink: &mut K,
) -> Ended
    requires settings { AreSettings settings.now }
    requires alone { IsAlone settings.now }
    ensures table { Ran K.written K.faults
        (IsAllowed (λ input. QueryRow settings.now input (S.faults source.old)
        (S.faults source.new)) (S.left source.old))
        sink.old sink.new result.status result.spent }
    ensures read_fault { result.status ≡ 5 → Rose (S.faults source.old) (S.faults source.new) }
    ensures write_fault { result.status ≡ 6 → Rose (K.faults sink.old) (K.faults sink.new) }
    ensures all_read { (result.status ≡ 0) ⊎ ((result.status ≡ 1) ⊎ (result.status ≡ 2))
        → IfSome (S.left source.old) (λ _. S.left source.new ≡ Some []) }
    ensures known { result.status ≢ 4 }
    ensures accepted { IfSome (S.left source.old) (IsAnsweredBy result.status (S.faults source.old)
        (S.faults source.new) (K.faults sink.old) (K.faults sink.new)) }
    // A budget of at least 3 to the power of the number of variables leaves no test spent.
    ensures decided { IfSome (S.left source.old) (IsDecidedAs settings.now.budget result.status
        (S.faults source.old) (S.faults source.new) (K.faults sink.old) (K.faults sink.new)) }
{
    match query(alloc, settings, source, sink) {
        Ok(ended) => ended,
        Err(_) => without_tests(6),
    }
}

/// Writes what there is to write, and gives the status.
fn query<S: Source, K: Sink>(
    alloc: Global,
    settings: &Settings,
    source: &mut S,
    sink: &mut K,
) -> Result<Ended, WriteFault>
    requires settings { AreSettings settings.now }
    requires alone { IsAlone settings.now }
    ensures table { Ends K.written K.faults sink.old sink.new
        (IsAllowed (λ input. QueryRow settings.now input (S.faults source.old)
        (S.faults source.new)) (S.left source.old)) result }
    ensures read_fault { IfOk result
        (λ told. told.status ≡ 5 → Rose (S.faults source.old) (S.faults source.new)) }
    ensures all_read { IfOk result
        (λ told. (told.status ≡ 0) ⊎ ((told.status ≡ 1) ⊎ (told.status ≡ 2))
        → IfSome (S.left source.old) (λ _. S.left source.new ≡ Some [])) }
    ensures known { IfOk result (λ told. (told.status ≢ 4) × (told.status ≢ 6)) }
{
    match read_program(alloc, source) {
        Ok(program) => answer(alloc, &program, settings, sink),
        Err(error) => write_refusal(error, sink),
    }
}

/// Writes the report on a program, or that it has too many variables.
fn answer<K: Sink>(
    alloc: Global,
    program: &Program,
    settings: &Settings,
    sink: &mut K,
) -> Result<Ended, WriteFault>
    requires program { IsProgram program.now }
    requires settings { AreSettings settings.now }
    requires alone { IsAlone settings.now }
    ensures { Ends K.written K.faults sink.old sink.new (HasAnswered program.now settings.now) result }
{
    match normalise(alloc, program) {
        Ok(normal) => answer_query(alloc, program, &normal, settings, sink),
        Err(error) => write_size_refusal(error, sink),
    }
}

// Writes why there is no normal form.
fn write_size_refusal<K: Sink>(error: NormalError, sink: &mut K) -> Result<Ended, WriteFault>
    ensures { Ends K.written K.faults sink.old sink.new (IsSizeRefusalOf error) result }
{
    match error {
        NormalError::TooManyVariables(count) => refuse(3, 0, Why::TooManyVariables, count, sink),
        NormalError::NoMemory => tell_no_memory(sink),
    }
}

// Writes why there is no program.
fn write_refusal<K: Sink>(error: ReadError, sink: &mut K) -> Result<Ended, WriteFault>
    ensures { Ends K.written K.faults sink.old sink.new (IsRefusalOf error) result }
{
    match error {
        ReadError::Text { why, line, value } => refuse(3, line, why_of(why), value, sink),
        ReadError::TooLong => refuse(3, 0, Why::TooLong, MOST_BYTES, sink),
        ReadError::ReadFault => refuse(5, 0, Why::ReadFault, 0, sink),
        ReadError::NoMemory => tell_no_memory(sink),
    }
}

// The word for a fault of a text.
fn why_of(fault: TextFault) -> Why
    ensures { result ≡ why_of fault }
{
    match fault {
        TextFault::NotANumber => Why::NotANumber,
        TextFault::UnknownKind => Why::UnknownKind,
        TextFault::MinimizeRule => Why::MinimizeRule,
        TextFault::AtomZero => Why::AtomZero,
        TextFault::NumberTooLarge => Why::NumberTooLarge,
        TextFault::NegativeCount => Why::NegativeCount,
        TextFault::MissingMark => Why::MissingMark,
        TextFault::ExternalSection => Why::ExternalSection,
        TextFault::NameMissing => Why::NameMissing,
        TextFault::EndOfInput => Why::EndOfInput,
        TextFault::TrailingText => Why::TrailingText,
    }
}
