// The line of an answer set.
ghost use Rattle.std.specs.Prelude.{◌≡◌, length, IfOk};
ghost use Rattle.report_reader.specs.Reading.{IsReading, numbers_at, set_at, answer_at};
ghost use Rattle.report_reader.specs.Reading.{begins_with, without_first};

use crate::field_text::read_small;
use ground_program::Set;
use report::Line;
use std::alloc::{AllocError, Global};

/// The line of an answer set, from the bytes behind its word.
#[tactic(auto, unfolding(crate::specs::Reading::answer_at))]
pub fn read_answer(alloc: Global, bytes: &[u8], atoms: u32) -> Result<Option<Line>, AllocError>
    ensures { IfOk result (λ found. IsReading (λ x. x) found (answer_at atoms bytes.now)) }
{
    let Some((number, rest)) = read_small(bytes) else {
        return Ok(None);
    };
    let Some(numbers) = read_numbers(alloc, rest)? else {
        return Ok(None);
    };
    let Some(set) = set_of(alloc, &numbers, atoms)? else {
        return Ok(None);
    };
    Ok(Some(Line::Answer { number, set }))
}

/// The numbers up to the end.
fn read_numbers(alloc: Global, bytes: &[u8]) -> Result<Option<Vec<u32>>, AllocError>
    ensures { IfOk result
        (λ found. IsReading (λ x. x.items) found (numbers_at (length bytes.now) bytes.now)) }
{
    let mut numbers = Vec::new(alloc);
    let mut rest = bytes;
    while !rest.is_empty() {
        let Some((number, after)) = read_small(rest) else {
            return Ok(None);
        };
        numbers.push(number)?;
        rest = after;
    }
    Ok(Some(numbers))
}

/// The set of these atoms, where they ascend from 1 to `atoms` at most.
fn set_of(alloc: Global, numbers: &[u32], atoms: u32) -> Result<Option<Set>, AllocError>
    ensures { IfOk result (λ found. IsReading (λ x. x) found (set_at atoms numbers.now)) }
{
    let mut set = Set::open();
    set.push(alloc, false)?;
    let mut left = numbers;
    for before in 0..atoms {
        let (holds, others) = split_first(before + 1, left);
        set.push(alloc, holds)?;
        left = others;
    }
    match left {
        [] => Ok(Some(set)),
        _ => Ok(None),
    }
}

/// Whether the first of the numbers is this atom, and the numbers without it.
fn split_first(atom: u32, numbers: &[u32]) -> (bool, &[u32])
    ensures first { result.0 ≡ begins_with atom numbers.now }
    ensures others { result.1.now ≡ without_first atom numbers.now }
{
    match numbers {
        [first, others @ ..] if *first == atom => (true, others),
        _ => (false, numbers),
    }
}
