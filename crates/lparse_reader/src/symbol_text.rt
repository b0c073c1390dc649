// The symbol table.
ghost use Rattle.std.specs.Prelude.{◌≡◌, [], length};
ghost use Rattle.lparse_reader.specs.Tokens.{line_of, after_line, trimmed};
ghost use Rattle.lparse_reader.specs.Fields.{ReadsAs, name_at, entry_or_end_at};
ghost use Rattle.lparse_reader.specs.Reading.{all_at};

use crate::fault::{Fault, Stop, TextFault};
use crate::token_text::{fault_here, next_token, read_number};
use ground_program::{Name, Named, Names};
use item_list::List;
use std::alloc::Global;

/// All entries.
pub fn read_names(alloc: Global, bytes: &[u8]) -> Result<(Names, &[u8]), Stop>
    ensures { ReadsAs (λ x. (x.0, x.1.now)) result (all_at entry_or_end_at bytes.now) }
{
    let mut names = List::open();
    let mut rest = bytes;
    // Each entry takes a byte at least, and so does the end.
    for _ in 0..bytes.len() {
        let (named, after) = read_entry_or_end(alloc, rest)?;
        rest = after;
        match named {
            None => return Ok((names, rest)),
            Some(named) => names.push(alloc, named)?,
        }
    }
    Err(Stop::Fault(Fault::Ended))
}

/// An entry, or nothing at a 0.
#[tactic(auto, unfolding(crate::specs::Fields::entry_or_end_at))]
fn read_entry_or_end(alloc: Global, bytes: &[u8]) -> Result<(Option<Named>, &[u8]), Stop>
    ensures { ReadsAs (λ x. (x.0, x.1.now)) result (entry_or_end_at bytes.now) }
{
    let (atom, rest) = read_number(bytes)?;
    if atom == 0 {
        return Ok((None, rest));
    }
    name_of(alloc, next_token(bytes), atom, rest)
}

/// The entry of an atom, which stands at `token`: one blank or tab, and the rest of the line.
fn name_of<'a>(
    alloc: Global,
    token: &[u8],
    atom: u32,
    bytes: &'a [u8],
) -> Result<(Option<Named>, &'a [u8]), Stop>
    ensures { ReadsAs (λ x. (x.0, x.1.now)) result (name_at (length token.now) atom bytes.now) }
{
    match bytes {
        [b' ' | b'\t', line @ ..] => {
            let (line, rest) = line_split(line);
            let text = without_returns(line);
            if text.is_empty() {
                return Err(fault_here(TextFault::NameMissing, token, atom as u64));
            }
            let name = Name::from_slice(alloc, text)?;
            Ok((Some(Named { atom, name }), rest))
        }
        _ => Err(fault_here(TextFault::NameMissing, token, atom as u64)),
    }
}

/// The bytes up to a line feed, and the rest.
fn line_split(bytes: &[u8]) -> (&[u8], &[u8])
    ensures line { result.0.now ≡ line_of bytes.now }
    ensures rest { result.1.now ≡ after_line bytes.now }
{
    for (at, byte) in bytes.iter().enumerate() {
        if *byte == b'\n' {
            return bytes.split_at(at);
        }
    }
    (bytes, &[])
}

/// The line without the carriage returns at its end.
fn without_returns(line: &[u8]) -> &[u8]
    ensures { result.now ≡ trimmed line.now }
{
    let mut text = line;
    while let [front @ .., last] = text {
        if *last != b'\r' {
            return text;
        }
        text = front;
    }
    text
}
