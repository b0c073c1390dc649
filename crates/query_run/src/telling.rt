// Lines as they are written.
ghost use Rattle.std.specs.Prelude.{◌≡◌, ◌++◌, ◌||◌, All, IfOk, map, not};
ghost use Rattle.std.specs.List.{flat_map, list_any};
ghost use Rattle.byte_edges.specs.Edges.{Writes};
ghost use Rattle.ground_program.specs.Bounds.{IsCandidate};
ghost use Rattle.report.specs.Text.{NamesCandidate, text_of_line, text_of_lines};
ghost use Rattle.report.specs.declared.lines.Line.TheVariants.{Unsettled};
ghost use Rattle.query_run.specs.Way.{settles, sizes_before, with_sizes};

use crate::rounds::Rounds;
use byte_edges::{Sink, WriteFault};
use ground_program::Names;
use report::{Line, write_line};

impl Rounds<'_> {
    /// Writes the lines of a round, and a PAIR line behind them where they settle a candidate.
    pub(crate) fn tell<K: Sink>(&mut self, told: &[Line], sink: &mut K) -> Result<(), WriteFault>
        requires { All (NamesCandidate self.old.books.normal.names) told.now }
        ensures written { Writes K.written K.faults sink.old sink.new
            (text_of_lines self.old.books.normal.names (with_sizes self.old.books told.now)) result }
        ensures ok { IfOk result (λ _. self.new ≡ record self.old {
          sized = self.old.sized || list_any settles told.now;
        }) }
        ensures books { self.new.books ≡ self.old.books }
    {
        let sized = write_told(told, self.master.sizes(), &self.normal.names, sink)?;
        self.note(sized);
        Ok(())
    }

    /// A PAIR line was written, or it wasn't.
    fn note(&mut self, sized: bool)
        ensures { self.new ≡ record self.old { sized = self.old.sized || sized } }
    {
        self.sized = self.sized || sized;
    }
}

/// Writes lines, and a PAIR line with these sizes behind them where they settle a candidate, and
/// says whether there was one.
fn write_told<K: Sink>(
    told: &[Line],
    sizes: (u32, u32),
    names: &Names,
    sink: &mut K,
) -> Result<bool, WriteFault>
    requires { All (NamesCandidate names.now) told.now }
    ensures written { Writes K.written K.faults sink.old sink.new
        (text_of_lines names.now (told.now
        ++ sizes_before (not (list_any settles told.now)) sizes.0 sizes.1)) result }
    ensures sized { IfOk result (λ sized. sized ≡ list_any settles told.now) }
{
    write_lines(told, names, sink)?;
    let sized = do_settle(told);
    write_first_sizes(!sized, sizes, names, sink)?;
    Ok(sized)
}

/// Whether some line settles a candidate.
fn do_settle(told: &[Line]) -> bool
    ensures { result ≡ list_any settles told.now }
{
    told.iter().any(settles)
}

/// Whether a line settles a candidate.
fn settles(line: &Line) -> bool
    ensures { result ≡ settles line.now }
{
    match line {
        Line::SettledIn { .. } => true,
        Line::SettledOut { .. } => true,
        _ => false,
    }
}

/// Writes the PAIR line with these sizes, unless one stands there.
pub(crate) fn write_first_sizes<K: Sink>(
    sized: bool,
    sizes: (u32, u32),
    names: &Names,
    sink: &mut K,
) -> Result<(), WriteFault>
    ensures { Writes K.written K.faults sink.old sink.new
        (text_of_lines names.now (sizes_before sized sizes.0 sizes.1)) result }
{
    if sized {
        return Ok(());
    }
    let line = Line::Sizes {
        lower: sizes.0,
        upper: sizes.1,
    };
    write_line(&line, names, sink)
}

/// Writes lines.
fn write_lines<K: Sink>(lines: &[Line], names: &Names, sink: &mut K) -> Result<(), WriteFault>
    requires { All (NamesCandidate names.now) lines.now }
    ensures { Writes K.written K.faults sink.old sink.new (text_of_lines names.now lines.now) result }
{
    for line in lines {
        write_line(line, names, sink)?;
    }
    Ok(())
}

/// Writes the lines of open candidates whose own tests were spent.
pub(crate) fn write_open<K: Sink>(
    cands: &[u32],
    budget: u32,
    names: &Names,
    sink: &mut K,
) -> Result<(), WriteFault>
    requires { All (IsCandidate names.now) cands.now }
    ensures { Writes K.written K.faults sink.old sink.new
        (text_of_lines names.now (map (λ cand. Unsettled cand budget) cands.now)) result }
{
    write_each_open(cands, budget, names, sink)
}

/// Writes them one by one.
fn write_each_open<K: Sink>(
    cands: &[u32],
    budget: u32,
    names: &Names,
    sink: &mut K,
) -> Result<(), WriteFault>
    requires { All (IsCandidate names.now) cands.now }
    ensures { Writes K.written K.faults sink.old sink.new
        (flat_map (λ cand. text_of_line names.now (Unsettled cand budget)) cands.now) result }
{
    for cand in cands {
        let line = Line::Unsettled {
            cand: *cand,
            units: budget,
        };
        write_line(&line, names, sink)?;
    }
    Ok(())
}
