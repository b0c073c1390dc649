// Numbers and single bytes beside them. Each call is one run of bytes from a buffer on the stack.
ghost use Rattle.std.specs.Prelude.{[], ◌∷◌, ◌++◌, decimal};
ghost use Rattle.byte_edges.specs.Edges.{Writes};

use byte_edges::{Sink, WriteFault, write_bytes};
use itoa::{Buffer, write_digits};

// No number of 64 bits has more digits.
const MOST_DIGITS: usize = 20;

/// Writes the number in decimal, without leading zeros.
pub fn write_number<K: Sink>(value: u64, sink: &mut K) -> Result<(), WriteFault>
    ensures { Writes K.written K.faults sink.old sink.new (decimal value) result }
{
    let mut digits = Buffer::new();
    write_bytes(digits.format(value).as_bytes(), sink)
}

/// Writes the number and then one byte.
pub fn write_number_ended<K: Sink>(value: u64, end: u8, sink: &mut K) -> Result<(), WriteFault>
    ensures { Writes K.written K.faults sink.old sink.new (decimal value ++ end ∷ []) result }
{
    let mut text = [end; MOST_DIGITS + 1];
    let start = write_digits(value, &mut text, MOST_DIGITS);
    write_bytes(&text[start..], sink)
}

/// Writes one byte and then the number.
pub fn write_number_after<K: Sink>(before: u8, value: u64, sink: &mut K) -> Result<(), WriteFault>
    ensures { Writes K.written K.faults sink.old sink.new (before ∷ decimal value) result }
{
    let mut text = [before; MOST_DIGITS + 1];
    let start = write_digits(value, &mut text, MOST_DIGITS + 1);
    write_bytes(&text[start - 1..], sink)
}
