// From the bits of words to the truth values of a pair.
ghost use Rattle.std.specs.Prelude.{◌≡◌, ◌+◌, ◌≤◌, ◌<◌, ◌*◌, ◌^◌, ℕ, false, not, length};
ghost use Rattle.std.specs.Prelude.{slice_index_or};
ghost use Rattle.anytime_core.specs.Showing.{IsShown, IsShownNot};

use ground_program::Bits;

/// Writes the bits of one in-word to the places from `first` on, as far as there are places.
pub fn show_in_bits(word: u64, first: usize, bits: &mut Bits)
    requires { first + 64 < 2 ^ 64 }
    ensures { IsShown word first bits.old bits.new }
{
    let end = bits.len().min(first + 64);
    for place in first..end {
        bits.set(place, word >> (place - first) & 1 == 1);
    }
}

/// Writes the opposite of the bits of one out-word to the places from `first` on.
pub fn show_out_bits(word: u64, first: usize, bits: &mut Bits)
    requires { first + 64 < 2 ^ 64 }
    ensures { IsShownNot word first bits.old bits.new }
{
    let end = bits.len().min(first + 64);
    for place in first..end {
        bits.set(place, word >> (place - first) & 1 == 0);
    }
}
