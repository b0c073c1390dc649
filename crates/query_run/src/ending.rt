// How a run ends.
ghost use Rattle.std.specs.Prelude.{◌≡◌, ◌≤◌, ◌++◌, [], ◌∷◌, All, map};
ghost use Rattle.byte_edges.specs.Edges.{Writes};
ghost use Rattle.ground_program.specs.Bounds.{IsCandidate};
ghost use Rattle.report.specs.Text.{NamesCandidate, text_of_lines};
ghost use Rattle.report.specs.declared.lines.Line.TheVariants.{Complete, Partial, Unknown, Unsettled};
ghost use Rattle.master_record.specs.Books.{open_list};
ghost use Rattle.query_run.specs.Way.{last_sizes, sizes_before};
ghost use Rattle.query_run.specs.Ending.{HasEnded, HasEndedPartial, HasFinished, IsSpentEnd};

use crate::answering::Ended;
use crate::rest::Rest;
use crate::telling::{write_first_sizes, write_open};
use byte_edges::{Sink, WriteFault};
use ground_program::Names;
use item_list::List;
use master_record::Verdict;
use normal_program::Tests;
use report::{Line, write_line};
use std::alloc::Global;

impl Rest<'_> {
    /// Writes the lines of a verdict. A run that isn't decided ran out of memory.
    pub(crate) fn finish<K: Sink>(
        self,
        alloc: Global,
        verdict: Verdict,
        sink: &mut K,
    ) -> Result<Ended, WriteFault>
        ensures { HasFinished K.written K.faults sink.old sink.new self.entry verdict result }
    {
        match verdict {
            Verdict::Complete => self.end_complete(sink),
            Verdict::Partial => self.end_partial(alloc, sink),
            Verdict::Incoherent => end_plainly(Line::Incoherent, 2, &self.normal.names, sink),
            Verdict::NoMemory => end_plainly(Line::NoMemory, 7, &self.normal.names, sink),
            Verdict::Running => end_plainly(Line::NoMemory, 7, &self.normal.names, sink),
        }
    }

    /// Every candidate is settled.
    fn end_complete<K: Sink>(self, sink: &mut K) -> Result<Ended, WriteFault>
        ensures { HasEnded K.written K.faults sink.old sink.new self.entry.books.normal.names
            (last_sizes self.entry ++ Complete ∷ []) 0 [] result }
    {
        write_complete(self.sized, self.master.sizes(), &self.normal.names, sink)
    }

    /// Each test that is left was spent. All memory is taken before the first line is written.
    fn end_partial<K: Sink>(self, alloc: Global, sink: &mut K) -> Result<Ended, WriteFault>
        ensures { HasEndedPartial K.written K.faults sink.old sink.new self.entry result }
    {
        if self.master.answers() == 0 {
            return self.end_unknown(sink);
        }
        match self.master.open_candidates(alloc) {
            Ok(cands) => self.end_open(&cands, sink),
            Err(_) => end_plainly(Line::NoMemory, 7, &self.normal.names, sink),
        }
    }

    /// The test of coherence was spent, and no answer set is known.
    fn end_unknown<K: Sink>(self, sink: &mut K) -> Result<Ended, WriteFault>
        ensures { IsSpentEnd K.written K.faults sink.old sink.new self.entry
            (Unknown self.entry.books.budget ∷ []) result }
    {
        let sizes = self.master.sizes();
        let spent = self.master.into_spent();
        write_unknown(
            self.sized,
            sizes,
            self.budget,
            spent,
            &self.normal.names,
            sink,
        )
    }

    /// The own tests of these candidates, which are all that are open, were spent.
    fn end_open<K: Sink>(self, cands: &[u32], sink: &mut K) -> Result<Ended, WriteFault>
        requires { cands.now ≡ open_list self.books }
        ensures { IsSpentEnd K.written K.faults sink.old sink.new self.entry
            (map (λ cand. Unsettled cand self.entry.books.budget) cands.now) result }
    {
        let sizes = self.master.sizes();
        let spent = self.master.into_spent();
        write_tests(
            self.sized,
            sizes,
            cands,
            self.budget,
            spent,
            &self.normal.names,
            sink,
        )
    }
}

/// Writes COMPLETE, and a PAIR line with these sizes before it, unless one stands there.
fn write_complete<K: Sink>(
    sized: bool,
    sizes: (u32, u32),
    names: &Names,
    sink: &mut K,
) -> Result<Ended, WriteFault>
    ensures { HasEnded K.written K.faults sink.old sink.new names.now
        (sizes_before sized sizes.0 sizes.1 ++ Complete ∷ []) 0 [] result }
{
    write_first_sizes(sized, sizes, names, sink)?;
    end_plainly(Line::Complete, 0, names, sink)
}

/// Writes UNKNOWN and PARTIAL, and a PAIR line before them, unless one stands there.
fn write_unknown<K: Sink>(
    sized: bool,
    sizes: (u32, u32),
    budget: u32,
    spent: Tests,
    names: &Names,
    sink: &mut K,
) -> Result<Ended, WriteFault>
    ensures { HasEnded K.written K.faults sink.old sink.new names.now
        (sizes_before sized sizes.0 sizes.1 ++ ((Unknown budget ∷ []) ++ Partial ∷ [])) 1 spent
        result }
{
    write_first_sizes(sized, sizes, names, sink)?;
    write_unknown_line(budget, names, sink)?;
    end_with(Line::Partial, 1, spent, names, sink)
}

/// Writes that the test of coherence was spent.
fn write_unknown_line<K: Sink>(budget: u32, names: &Names, sink: &mut K) -> Result<(), WriteFault>
    ensures { Writes K.written K.faults sink.old sink.new
        (text_of_lines names.now (Unknown budget ∷ [])) result }
{
    write_line(&Line::Unknown { units: budget }, names, sink)
}

/// Writes the lines of candidates whose own tests were spent, and PARTIAL, and a PAIR line before
/// them, unless one stands there.
fn write_tests<K: Sink>(
    sized: bool,
    sizes: (u32, u32),
    cands: &[u32],
    budget: u32,
    spent: Tests,
    names: &Names,
    sink: &mut K,
) -> Result<Ended, WriteFault>
    requires { All (IsCandidate names.now) cands.now }
    ensures { HasEnded K.written K.faults sink.old sink.new names.now
        (sizes_before sized sizes.0 sizes.1
        ++ (map (λ cand. Unsettled cand budget) cands.now ++ Partial ∷ [])) 1 spent result }
{
    write_first_sizes(sized, sizes, names, sink)?;
    write_open(cands, budget, names, sink)?;
    end_with(Line::Partial, 1, spent, names, sink)
}

/// Writes the last line of a run that rests on no spent test.
pub(crate) fn end_plainly<K: Sink>(
    line: Line,
    status: u8,
    names: &Names,
    sink: &mut K,
) -> Result<Ended, WriteFault>
    requires { NamesCandidate names.now line }
    ensures { HasEnded K.written K.faults sink.old sink.new names.now (line ∷ []) status [] result }
{
    end_with(line, status, List::open(), names, sink)
}

/// Writes the last line of a run, and gives its status and its spent tests.
fn end_with<K: Sink>(
    line: Line,
    status: u8,
    spent: Tests,
    names: &Names,
    sink: &mut K,
) -> Result<Ended, WriteFault>
    requires { NamesCandidate names.now line }
    ensures { HasEnded K.written K.faults sink.old sink.new names.now (line ∷ []) status spent result }
{
    write_line(&line, names, sink)?;
    Ok(Ended { status, spent })
}
