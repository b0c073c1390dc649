// Writing lines to a sink. Each call writes its text, or a prefix of it where the sink fails.
ghost use Rattle.std.specs.Prelude.{◌≡◌, ◌≤◌, ◌<◌, ◌+◌, ◌^◌, ◌++◌, [], ◌∷◌, List, length, take};
ghost use Rattle.std.specs.Prelude.{drop, codes, decimal};
ghost use Rattle.byte_edges.specs.Edges.{Writes};
ghost use Rattle.ground_program.specs.Bounds.{IsCandidate};
ghost use Rattle.report.specs.Text.{NamesCandidate, text_of_line, words_of_line, text_of_why};
ghost use Rattle.report.specs.Text.{name_of, field, fields, positions_from};

use crate::{Line, Why};
use byte_edges::{Page, Sink, WriteFault, write_bytes};
use ground_program::Names;
use number_text::write_number_after;

// How many values of a set are written at a time. With a blank, a position below ten million has
// eight bytes, so that many fit a page.
const BLOCK: usize = 512;

/// Writes the line with its line feed. It takes no memory. A line of up to 4096 bytes goes out by
/// one write. Of a longer one the set goes out in blocks, and each other field by itself.
pub fn write_line<K: Sink>(line: &Line, names: &Names, sink: &mut K) -> Result<(), WriteFault>
    requires { NamesCandidate names.now line.now }
    ensures { Writes K.written K.faults sink.old sink.new (text_of_line names.now line.now) result }
{
    let mut page = Page::open();
    match write_whole(line, names, &mut page) {
        Ok(()) => write_bytes(page.written(), sink),
        Err(_) => write_whole(line, names, sink),
    }
}

fn write_whole<K: Sink>(line: &Line, names: &Names, sink: &mut K) -> Result<(), WriteFault>
    requires { NamesCandidate names.now line.now }
    ensures { Writes K.written K.faults sink.old sink.new (text_of_line names.now line.now) result }
{
    write_words(line, names, sink)?;
    write_bytes(b"\n", sink)
}

fn write_words<K: Sink>(line: &Line, names: &Names, sink: &mut K) -> Result<(), WriteFault>
    requires { NamesCandidate names.now line.now }
    ensures { Writes K.written K.faults sink.old sink.new
        (words_of_line names.now line.now) result }
{
    match line {
        Line::Answer { number, set } => write_answer(*number, set.as_slice(), sink),
        Line::SettledIn { cand, by } => write_named(b"IN", *cand, *by, names, sink),
        Line::SettledOut { cand, by } => write_named(b"OUT", *cand, *by, names, sink),
        Line::Sizes { lower, upper } => write_fields(b"PAIR", &[*lower, *upper], sink),
        Line::Watch {
            watcher,
            lower,
            upper,
        } => write_fields(b"WATCH", &[*watcher, *lower, *upper], sink),
        Line::Unsettled { cand, units } => write_named(b"OPEN", *cand, *units, names, sink),
        Line::Unknown { units } => write_fields(b"UNKNOWN", &[*units], sink),
        Line::Complete => write_bytes(b"COMPLETE", sink),
        Line::Partial => write_bytes(b"PARTIAL", sink),
        Line::Incoherent => write_bytes(b"INCOHERENT", sink),
        Line::NoMemory => write_bytes(b"NOMEMORY", sink),
        Line::Refused { line, why, value } => write_refusal(*line, *why, *value, sink),
    }
}

fn write_answer<K: Sink>(number: u32, set: &[bool], sink: &mut K) -> Result<(), WriteFault>
    ensures { Writes K.written K.faults sink.old sink.new
        (codes "ANSWER" ++ fields (number ∷ positions_from 0 set.now)) result }
{
    write_fields(b"ANSWER", &[number], sink)?;
    write_positions(set, sink)
}

// Writes the positions of the true values, block by block.
fn write_positions<K: Sink>(set: &[bool], sink: &mut K) -> Result<(), WriteFault>
    ensures { Writes K.written K.faults sink.old sink.new
        (fields (positions_from 0 set.now)) result }
{
    let mut at = 0;
    while at < set.len() {
        let count = BLOCK.min(set.len() - at);
        write_block(at, block_of(set, at, count), sink)?;
        at += count;
    }
    Ok(())
}

// So many values from `at` on.
fn block_of(set: &[bool], at: usize, count: usize) -> &[bool]
    requires { at + count ≤ length set.now }
    ensures { result.now ≡ take count (drop at set.now) }
{
    &set[at..at + count]
}

// Writes the positions of the true values of a block whose first value has position `from`: by one
// write, where they fit a page.
fn write_block<K: Sink>(from: usize, block: &[bool], sink: &mut K) -> Result<(), WriteFault>
    requires { from + length block.now < 2 ^ 64 }
    ensures { Writes K.written K.faults sink.old sink.new
        (fields (positions_from from block.now)) result }
{
    let mut page = Page::open();
    match write_each(from, block, &mut page) {
        Ok(()) => write_bytes(page.written(), sink),
        Err(_) => write_each(from, block, sink),
    }
}

fn write_each<K: Sink>(from: usize, block: &[bool], sink: &mut K) -> Result<(), WriteFault>
    requires { from + length block.now < 2 ^ 64 }
    ensures { Writes K.written K.faults sink.old sink.new
        (fields (positions_from from block.now)) result }
{
    for (at, holds) in block.iter().enumerate() {
        if *holds {
            write_number_after(b' ', (from + at) as u64, sink)?;
        }
    }
    Ok(())
}

// Writes a word, a candidate, a number and the candidate's name.
fn write_named<K: Sink>(
    word: &[u8],
    cand: u32,
    number: u32,
    names: &Names,
    sink: &mut K,
) -> Result<(), WriteFault>
    requires { IsCandidate names.now cand }
    ensures { Writes K.written K.faults sink.old sink.new
        (word.now ++ fields (cand ∷ number ∷ []) ++ field (name_of names.now cand)) result }
{
    write_fields(word, &[cand, number], sink)?;
    let named = names.get(cand as usize - 1);
    write_field(named.name.as_slice(), sink)
}

fn write_refusal<K: Sink>(line: u32, why: Why, value: u64, sink: &mut K) -> Result<(), WriteFault>
    ensures { Writes K.written K.faults sink.old sink.new
        (codes "REFUSED" ++ fields (line ∷ []) ++ field (text_of_why why)
        ++ field (decimal value)) result }
{
    write_cause(line, why, sink)?;
    write_number_after(b' ', value, sink)
}

// Writes a refusal as far as its value.
fn write_cause<K: Sink>(line: u32, why: Why, sink: &mut K) -> Result<(), WriteFault>
    ensures { Writes K.written K.faults sink.old sink.new
        (codes "REFUSED" ++ fields (line ∷ []) ++ field (text_of_why why)) result }
{
    write_fields(b"REFUSED", &[line], sink)?;
    write_field(text_of(why), sink)
}

// Writes a word and numbers.
fn write_fields<K: Sink>(word: &[u8], numbers: &[u32], sink: &mut K) -> Result<(), WriteFault>
    ensures { Writes K.written K.faults sink.old sink.new (word.now ++ fields numbers.now) result }
{
    write_bytes(word, sink)?;
    write_numbers(numbers, sink)
}

fn write_numbers<K: Sink>(numbers: &[u32], sink: &mut K) -> Result<(), WriteFault>
    ensures { Writes K.written K.faults sink.old sink.new (fields numbers.now) result }
{
    for number in numbers {
        write_number_after(b' ', u64::from(*number), sink)?;
    }
    Ok(())
}

fn write_field<K: Sink>(text: &[u8], sink: &mut K) -> Result<(), WriteFault>
    ensures { Writes K.written K.faults sink.old sink.new (field text.now) result }
{
    write_bytes(b" ", sink)?;
    write_bytes(text, sink)
}

fn text_of(why: Why) -> &'static [u8]
    ensures { result.now ≡ text_of_why why }
{
    match why {
        Why::NotANumber => b"NotANumber",
        Why::UnknownKind => b"UnknownKind",
        Why::MinimizeRule => b"MinimizeRule",
        Why::AtomZero => b"AtomZero",
        Why::NumberTooLarge => b"NumberTooLarge",
        Why::NegativeCount => b"NegativeCount",
        Why::MissingMark => b"MissingMark",
        Why::ExternalSection => b"ExternalSection",
        Why::NameMissing => b"NameMissing",
        Why::EndOfInput => b"EndOfInput",
        Why::TrailingText => b"TrailingText",
        Why::TooLong => b"TooLong",
        Why::ReadFault => b"ReadFault",
        Why::TooManyVariables => b"TooManyVariables",
        Why::Words => b"Words",
    }
}
