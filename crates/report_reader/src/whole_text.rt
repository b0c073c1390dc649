// Whole texts.
ghost use Rattle.std.specs.Prelude.{◌≡◌, ◌<◌, ◌^◌, ℕ, List, length, IfOk, IfErr};
ghost use Rattle.report.specs.declared.lines.Line as declared;
ghost use Rattle.report_reader.specs.Lines.{AreOneLine, IsTextOf, IsFirstWrong, IsWhy};
ghost use Rattle.report_reader.specs.Lines.{AreLinesUnlessNoMemory, IsNumberUnlessNoMemory};
ghost use Rattle.report_reader.specs.Reading.{IsReading, first_at};

use crate::field_text::split_before;
use crate::line_text::read_line;
use crate::report_error::ReportError;
use ground_program::Names;
use report::Line;
use std::alloc::{AllocError, Global};

/// The lines of a text, or the number of the first that is no line of a report for these names and
/// atoms from 1 to `atoms`. Whether the lines are a legal report isn't asked.
pub fn read_report(
    alloc: Global,
    text: &[u8],
    atoms: u32,
    names: &Names,
) -> Result<Vec<Line>, ReportError>
    requires short { length text.now < 2 ^ 32 }
    requires one_line { AreOneLine names.now }
    // What is read has this text, and lines with this text are read, unless memory runs out.
    ensures read { IfOk result (λ lines. IsTextOf atoms names.now text.now lines.items) }
    ensures all_read { (lines : List declared.Line) → IsTextOf atoms names.now text.now lines
        → AreLinesUnlessNoMemory (λ found. found.items) result lines }
    // The line that is told is the first that is none, and the first that is none is told, unless
    // memory runs out.
    ensures refused { IfErr result (IsWhy atoms names.now text.now) }
    ensures all_refused { (number : ℕ) → IsFirstWrong atoms names.now text.now number
        → IsNumberUnlessNoMemory result number }
{
    read_lines(alloc, text, atoms, names)
}

fn read_lines(
    alloc: Global,
    text: &[u8],
    atoms: u32,
    names: &Names,
) -> Result<Vec<Line>, ReportError>
    requires short { length text.now < 2 ^ 32 }
    requires one_line { AreOneLine names.now }
    ensures read { IfOk result (λ lines. IsTextOf atoms names.now text.now lines.items) }
    ensures refused { IfErr result (IsWhy atoms names.now text.now) }
{
    let mut lines = Vec::new(alloc);
    let mut rest = text;
    while !rest.is_empty() {
        match read_first(alloc, rest, atoms, names)? {
            Some((line, after)) => {
                lines.push(line)?;
                rest = after;
            }
            None => return Err(ReportError::NotALine(lines.len() as u32 + 1)),
        }
    }
    Ok(lines)
}

/// The first line of a text, and the bytes behind it.
#[tactic(auto, unfolding(crate::specs::Reading::first_at))]
fn read_first<'a>(
    alloc: Global,
    text: &'a [u8],
    atoms: u32,
    names: &Names,
) -> Result<Option<(Line, &'a [u8])>, AllocError>
    ensures { IfOk result
        (λ found. IsReading (λ x. (x.0, x.1.now)) found (first_at atoms names.now text.now)) }
{
    let (words, rest) = split_before(b'\n', text);
    match rest {
        [] => Ok(None),
        [_, after @ ..] => match read_line(alloc, words, atoms, names)? {
            Some(line) => Ok(Some((line, after))),
            None => Ok(None),
        },
    }
}
