// Moving pieces of bytes in memory.
ghost use Rattle.std.specs.Prelude.{◌≡◌, ◌≤◌, ◌+◌, ◌++◌, length, take, drop, min, vec_len};
ghost use Rattle.std.specs.Prelude.{vec_capacity};

/// Copies the front of `left` to the front of `into`, and says how many bytes that were.
pub fn move_front(left: &[u8], into: &mut [u8], most: usize) -> usize
    ensures count { result ≡ min most (min (length into.old) (length left.now)) }
    ensures buffer { into.new ≡ take result left.now ++ drop result into.old }
{
    let count = most.min(into.len().min(left.len()));
    into[..count].copy_from_slice(&left[..count]);
    count
}

/// Puts bytes behind those that are kept. There has to be room.
pub fn keep(kept: &mut Vec<u8>, bytes: &[u8])
    requires { vec_len kept.old + length bytes.now ≤ vec_capacity kept.old }
    ensures items { kept.new.items ≡ kept.old.items ++ bytes.now }
    ensures capacity { vec_capacity kept.old ≤ vec_capacity kept.new }
{
    kept.extend_from_slice(bytes).unwrap();
}
