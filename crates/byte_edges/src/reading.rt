// Reading a source to its end.
ghost use Rattle.std.specs.Prelude.{◌≡◌, ◌≤◌, ◌<◌, ◌+◌, ◌-◌, ℕ, [], Some, length, drop, IfSome};
ghost use Rattle.std.specs.Prelude.{IfOk, OnOk, IsErrOf, vec_len};
ghost use Rattle.byte_edges.specs.Faults.{Rose};
ghost use Rattle.byte_edges.specs.Edges.{TookUpTo, CameBehind};
ghost use Rattle.byte_edges.specs.declared.reading.InputError.TheVariants.{ReadFault, NoMemory};

use crate::{Failed, Source};
use std::alloc::{AllocError, Global};
use thiserror::Error;

/// How many bytes one read asks for at most.
const BLOCK: usize = 65536;

/// Why an input was not read.
#[derive(Clone, Copy, Debug, PartialEq, Eq, Error)]
pub enum InputError {
    /// The source failed.
    #[error("the input could not be read")]
    ReadFault,
    /// The source has more bytes than the limit.
    #[error("the input is too long")]
    TooLong,
    /// Memory ran out.
    #[error("memory ran out")]
    NoMemory,
}

impl From<Failed> for InputError {
    ghost from_gives = { λ _ e. e ≡ ReadFault };

    fn from(_: Failed) -> InputError {
        InputError::ReadFault
    }
}

impl From<AllocError> for InputError {
    ghost from_gives = { λ _ e. e ≡ NoMemory };

    fn from(_: AllocError) -> InputError {
        InputError::NoMemory
    }
}

/// All bytes that a source has left, at most `limit`.
pub fn read_all<S: Source>(alloc: Global, source: &mut S, limit: u64) -> Result<Vec<u8>, InputError>
    ensures all { IfOk result (λ bytes. IfSome (S.left source.old) (λ left. bytes.items ≡ left)) }
    ensures within { IfOk result (λ bytes. length bytes.items ≤ limit) }
    ensures end { OnOk result (IfSome (S.left source.old) (λ _. S.left source.new ≡ Some [])) }

    // A fault comes before more than the limit was taken.
    ensures read_fault { IsErrOf result InputError.ReadFault
        → Rose (S.faults source.old) (S.faults source.new) }
    ensures fault_within { IsErrOf result InputError.ReadFault
        → IfSome (S.left source.old) (TookUpTo limit (S.left source.new)) }

    // The limit was taken and one byte more.
    ensures too_long { IsErrOf result InputError.TooLong → IfSome (S.left source.old)
        (λ left. (limit < length left) × (S.left source.new ≡ Some (drop (limit + 1) left))) }

    // What was taken stays taken, whatever the answer.
    ensures taken { IfSome (S.left source.old) (TookUpTo (limit + 1) (S.left source.new)) }
    ensures count { S.faults source.old ≤ S.faults source.new }
{
    let mut block = make_block(alloc, BLOCK)?;
    let mut bytes = Vec::new(alloc);
    while read_some(source, &mut block, limit, &mut bytes)? > 0 {
        if bytes.len() as u64 > limit {
            return Err(InputError::TooLong);
        }
    }
    Ok(bytes)
}

fn make_block(alloc: Global, len: usize) -> Result<Vec<u8>, AllocError>
    ensures { IfOk result (λ block. vec_len block ≡ len) }
{
    vec![in alloc; 0; len]
}

/// Reads once, and puts the bytes that came behind `bytes`. It asks for one byte past the limit at
/// most, which shows that there are too many.
fn read_some<S: Source>(
    source: &mut S,
    block: &mut [u8],
    limit: u64,
    bytes: &mut Vec<u8>,
) -> Result<usize, InputError>
    requires block { 0 < length block.old }
    requires below { length bytes.old.items ≤ limit }

    ensures grown { IfOk result (λ n. length bytes.new.items ≡ length bytes.old.items + n) }
    ensures within { IfOk result (λ n. length bytes.new.items ≤ limit + 1) }
    ensures came { IfOk result
        (λ n. IfSome (S.left source.old)
        (CameBehind n (S.left source.new) bytes.old.items bytes.new.items)) }
    ensures end { IfOk result (λ n. n ≡ 0 → IfSome (S.left source.old) (λ left. left ≡ [])) }

    ensures read_fault { IsErrOf result InputError.ReadFault
        → Rose (S.faults source.old) (S.faults source.new) }
    ensures not_long { IsErrOf result InputError.TooLong → ⊥ }

    // A read that failed took nothing.
    ensures unread { IsErrOf result InputError.ReadFault
        → IfSome (S.left source.old) (λ left. S.left source.new ≡ Some left) }
    ensures taken { IfSome (S.left source.old)
        (TookUpTo (limit + 1 - length bytes.old.items) (S.left source.new)) }
    ensures count { S.faults source.old ≤ S.faults source.new }
{
    let room = (limit - bytes.len() as u64).saturating_add(1);
    let want = room.min(block.len() as u64) as usize;
    let block = &mut block[..want];
    let count = source.read(block)?;
    bytes.extend_from_slice(&block[..count])?;
    Ok(count)
}
