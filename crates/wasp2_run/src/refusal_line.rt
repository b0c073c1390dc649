// The ends of a run that gives no report.
ghost use Rattle.std.specs.Prelude.{◌≡◌, [], IfOk};
ghost use Rattle.byte_edges.specs.Edges.{Writes};
ghost use Rattle.report.specs.Text.{text_of_line};
ghost use Rattle.report.specs.declared.lines.Line.TheVariants.{NoMemory};
ghost use Rattle.wasp2_run.specs.Run.{refusal};

use byte_edges::{Sink, WriteFault};
use item_list::List;
use query_run::Ended;
use report::{Line, Why, write_line};

/// Writes the line of a refusal, and gives the status.
pub fn refuse<K: Sink>(
    status: u8,
    line: u32,
    why: Why,
    value: u64,
    sink: &mut K,
) -> Result<Ended, WriteFault>
    ensures written { Writes K.written K.faults sink.old sink.new (refusal line why value) result }
    ensures ended { IfOk result (λ told. told ≡ record { status = status; spent = [] }) }
{
    write_line(&Line::Refused { line, why, value }, &List::open(), sink)?;
    Ok(without_tests(status))
}

/// Writes that the run ended for want of memory.
pub fn tell_no_memory<K: Sink>(sink: &mut K) -> Result<Ended, WriteFault>
    ensures written { Writes K.written K.faults sink.old sink.new (text_of_line [] NoMemory) result }
    ensures ended { IfOk result (λ told. told ≡ record { status = 7; spent = [] }) }
{
    write_line(&Line::NoMemory, &List::open(), sink)?;
    Ok(without_tests(7))
}

/// An end that rests on no spent test.
pub fn without_tests(status: u8) -> Ended
    ensures { result ≡ record { status = status; spent = [] } }
{
    Ended {
        status,
        spent: List::open(),
    }
}
