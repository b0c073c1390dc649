// The forms of a line, each from the bytes behind its word.
ghost use Rattle.std.specs.Prelude.{◌≡◌, IfOk};
ghost use Rattle.report_reader.specs.Reading.{IsReading, named_at, in_at, out_at, open_at, pair_at};
ghost use Rattle.report_reader.specs.Reading.{watch_at, unknown_at, refused_at, alone_at, form_at};
ghost use Rattle.report_reader.specs.Reading.{line_at, is_named};

use crate::field_text::{read_end, read_field, read_number, read_small, split_before};
use crate::set_text::read_answer;
use crate::word_text::{Word, why_of_text, word_of};
use ground_program::Names;
use report::Line;
use std::alloc::{AllocError, Global};

/// The line of these words.
#[tactic(auto, unfolding(crate::specs::Reading::line_at))]
pub fn read_line(
    alloc: Global,
    words: &[u8],
    atoms: u32,
    names: &Names,
) -> Result<Option<Line>, AllocError>
    ensures { IfOk result (λ found. IsReading (λ x. x) found (line_at atoms names.now words.now)) }
{
    let (text, rest) = split_before(b' ', words);
    match word_of(text) {
        Some(word) => read_form(alloc, word, rest, atoms, names),
        None => Ok(None),
    }
}

/// The line of a word, from the bytes behind it.
fn read_form(
    alloc: Global,
    word: Word,
    bytes: &[u8],
    atoms: u32,
    names: &Names,
) -> Result<Option<Line>, AllocError>
    ensures { IfOk result
        (λ found. IsReading (λ x. x) found (form_at atoms names.now word bytes.now)) }
{
    match word {
        Word::Answer => read_answer(alloc, bytes, atoms),
        Word::In => Ok(read_in(bytes, names)),
        Word::Out => Ok(read_out(bytes, names)),
        Word::Pair => Ok(read_pair(bytes)),
        Word::Watch => Ok(read_watch(bytes)),
        Word::Open => Ok(read_open(bytes, names)),
        Word::Unknown => Ok(read_unknown(bytes)),
        Word::Complete => Ok(read_alone(Line::Complete, bytes)),
        Word::Partial => Ok(read_alone(Line::Partial, bytes)),
        Word::Incoherent => Ok(read_alone(Line::Incoherent, bytes)),
        Word::NoMemory => Ok(read_alone(Line::NoMemory, bytes)),
        Word::Refused => Ok(read_refused(bytes)),
    }
}

#[tactic(auto, unfolding(crate::specs::Reading::in_at))]
fn read_in(bytes: &[u8], names: &Names) -> Option<Line>
    ensures { IsReading (λ x. x) result (in_at names.now bytes.now) }
{
    let (cand, by) = read_named(bytes, names)?;
    Some(Line::SettledIn { cand, by })
}

#[tactic(auto, unfolding(crate::specs::Reading::out_at))]
fn read_out(bytes: &[u8], names: &Names) -> Option<Line>
    ensures { IsReading (λ x. x) result (out_at names.now bytes.now) }
{
    let (cand, by) = read_named(bytes, names)?;
    Some(Line::SettledOut { cand, by })
}

#[tactic(auto, unfolding(crate::specs::Reading::open_at))]
fn read_open(bytes: &[u8], names: &Names) -> Option<Line>
    ensures { IsReading (λ x. x) result (open_at names.now bytes.now) }
{
    let (cand, units) = read_named(bytes, names)?;
    Some(Line::Unsettled { cand, units })
}

/// A candidate and a number, and then the candidate's name up to the end.
#[tactic(auto, unfolding(crate::specs::Reading::named_at))]
fn read_named(bytes: &[u8], names: &Names) -> Option<(u32, u32)>
    ensures { IsReading (λ x. x) result (named_at names.now bytes.now) }
{
    let (cand, rest) = read_small(bytes)?;
    let (number, rest) = read_small(rest)?;
    if is_named(cand, rest, names) {
        Some((cand, number))
    } else {
        None
    }
}

/// Whether there is such a candidate, and a blank and its name are the text.
fn is_named(cand: u32, text: &[u8], names: &Names) -> bool
    ensures { result ≡ is_named names.now cand text.now }
{
    if cand == 0 || cand as usize > names.len() {
        return false;
    }
    let named = names.get(cand as usize - 1);
    match text {
        [b' ', name @ ..] => named.name.as_slice() == name,
        _ => false,
    }
}

#[tactic(auto, unfolding(crate::specs::Reading::pair_at))]
fn read_pair(bytes: &[u8]) -> Option<Line>
    ensures { IsReading (λ x. x) result (pair_at bytes.now) }
{
    let (lower, rest) = read_small(bytes)?;
    let (upper, rest) = read_small(rest)?;
    read_end(rest)?;
    Some(Line::Sizes { lower, upper })
}

#[tactic(auto, unfolding(crate::specs::Reading::watch_at))]
fn read_watch(bytes: &[u8]) -> Option<Line>
    ensures { IsReading (λ x. x) result (watch_at bytes.now) }
{
    let (watcher, rest) = read_small(bytes)?;
    let (lower, rest) = read_small(rest)?;
    let (upper, rest) = read_small(rest)?;
    read_end(rest)?;
    Some(Line::Watch {
        watcher,
        lower,
        upper,
    })
}

#[tactic(auto, unfolding(crate::specs::Reading::unknown_at))]
fn read_unknown(bytes: &[u8]) -> Option<Line>
    ensures { IsReading (λ x. x) result (unknown_at bytes.now) }
{
    let (units, rest) = read_small(bytes)?;
    read_end(rest)?;
    Some(Line::Unknown { units })
}

#[tactic(auto, unfolding(crate::specs::Reading::refused_at))]
fn read_refused(bytes: &[u8]) -> Option<Line>
    ensures { IsReading (λ x. x) result (refused_at bytes.now) }
{
    let (line, rest) = read_small(bytes)?;
    let (text, rest) = read_field(rest)?;
    let why = why_of_text(text)?;
    let (value, rest) = read_number(rest)?;
    read_end(rest)?;
    Some(Line::Refused { line, why, value })
}

/// A line that is its word alone.
#[tactic(auto, unfolding(crate::specs::Reading::alone_at))]
fn read_alone(line: Line, bytes: &[u8]) -> Option<Line>
    ensures { IsReading (λ x. x) result (alone_at line bytes.now) }
{
    read_end(bytes)?;
    Some(line)
}
