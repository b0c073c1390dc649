// The fields that are one token.
ghost use Rattle.std.specs.Prelude.{◌≡◌, [], length};
ghost use Rattle.lparse_reader.specs.Tokens.{is_separator, skipped, is_token_end};
ghost use Rattle.lparse_reader.specs.Fields.{ReadsAs, digits_at, number_at, atom_at};
ghost use Rattle.lparse_reader.specs.Fields.{atom_or_end_at, mark_at, models_at, end_at};

use crate::fault::{Fault, Stop, TextFault};

/// The greatest number of the format.
const GREATEST: u64 = 2_147_483_647;

/// Whether the byte stands between tokens.
pub fn is_between(byte: u8) -> bool
    ensures { result ≡ is_separator byte }
{
    byte == b' ' || byte == b'\t' || byte == b'\n' || byte == b'\r'
}

/// Whether no token goes on here.
pub fn ends_token(bytes: &[u8]) -> bool
    ensures { result ≡ is_token_end bytes.now }
{
    match bytes {
        [] => true,
        [byte, ..] => is_between(*byte),
    }
}

/// The bytes from the next token on.
pub fn next_token(bytes: &[u8]) -> &[u8]
    ensures { result.now ≡ skipped bytes.now }
{
    for (at, byte) in bytes.iter().enumerate() {
        if !is_between(*byte) {
            return &bytes[at..];
        }
    }
    &[]
}

/// The fault of the token that begins here.
pub fn fault_here(why: TextFault, here: &[u8], value: u64) -> Stop
    ensures { result ≡ Stop.Fault (Fault.At why (length here.now) value) }
{
    let left = here.len();
    Stop::Fault(Fault::At { why, left, value })
}

/// A number.
#[tactic(auto, unfolding(crate::specs::Fields::number_at))]
pub fn read_number(bytes: &[u8]) -> Result<(u32, &[u8]), Stop>
    ensures { ReadsAs (λ x. (x.0, x.1.now)) result (number_at bytes.now) }
{
    let here = next_token(bytes);
    match here {
        [] => Err(Stop::Fault(Fault::Ended)),
        [_, ..] => read_digits(here),
    }
}

/// The number that begins here.
fn read_digits(here: &[u8]) -> Result<(u32, &[u8]), Stop>
    ensures { ReadsAs (λ x. (x.0, x.1.now)) result (digits_at (length here.now) 0 here.now) }
{
    let mut number: u64 = 0;
    for (at, byte) in here.iter().enumerate() {
        if is_between(*byte) {
            return Ok((number as u32, &here[at..]));
        }
        if !byte.is_ascii_digit() {
            return Err(fault_here(TextFault::NotANumber, here, *byte as u64));
        }
        number = 10 * number + (*byte - b'0') as u64;
        if number > GREATEST {
            return Err(fault_here(TextFault::NumberTooLarge, here, number));
        }
    }
    Ok((number as u32, &[]))
}

/// An atom, which is at least 1.
#[tactic(auto, unfolding(crate::specs::Fields::atom_at))]
pub fn read_atom(bytes: &[u8]) -> Result<(u32, &[u8]), Stop>
    ensures { ReadsAs (λ x. (x.0, x.1.now)) result (atom_at bytes.now) }
{
    let (atom, rest) = read_number(bytes)?;
    if atom == 0 {
        return Err(fault_here(TextFault::AtomZero, next_token(bytes), 0));
    }
    Ok((atom, rest))
}

/// The bytes after a mark, which is a `B` and a sign.
#[tactic(auto, unfolding(crate::specs::Fields::mark_at))]
pub fn read_mark(sign: u8, place: u64, bytes: &[u8]) -> Result<&[u8], Stop>
    ensures { ReadsAs (λ x. x.now) result (mark_at sign place bytes.now) }
{
    let here = next_token(bytes);
    match here {
        [] => Err(Stop::Fault(Fault::Ended)),
        [b'B', second, rest @ ..] if *second == sign && ends_token(rest) => Ok(rest),
        [_, ..] => Err(fault_here(TextFault::MissingMark, here, place)),
    }
}

/// The number of models.
#[tactic(auto, unfolding(crate::specs::Fields::models_at))]
pub fn read_models(bytes: &[u8]) -> Result<(u32, &[u8]), Stop>
    ensures { ReadsAs (λ x. (x.0, x.1.now)) result (models_at bytes.now) }
{
    let here = next_token(bytes);
    match here {
        [b'E', rest @ ..] if ends_token(rest) => {
            Err(fault_here(TextFault::ExternalSection, here, 69))
        }
        _ => read_number(bytes),
    }
}

/// Refuses another token.
#[tactic(auto, unfolding(crate::specs::Fields::end_at))]
pub fn read_end(bytes: &[u8]) -> Result<(), Stop>
    ensures { ReadsAs (λ _. []) result (end_at bytes.now) }
{
    let here = next_token(bytes);
    match here {
        [] => Ok(()),
        [byte, ..] => Err(fault_here(TextFault::TrailingText, here, *byte as u64)),
    }
}
