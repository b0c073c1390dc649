// Rows of words: the flags, then the in-words, then as many out-words.
ghost use Rattle.std.specs.Prelude.{◌≡◌, ◌<◌, ◌^◌, length, replicate, IfOk};
ghost use Rattle.anytime_core.specs.Bits.{words_for, all_words, both};

use item_list::{List, NoMemory};
use std::alloc::Global;

/// How many words have a bit for each of so many candidates.
pub fn words_over(candidates: u32) -> usize
    ensures { result ≡ words_for candidates }
{
    (candidates as usize + 63) / 64
}

/// How many words the row has for so many candidates.
pub fn row_length(candidates: u32) -> usize
    ensures { result ≡ all_words candidates }
{
    let side = words_over(candidates);
    1 + side + side
}

/// So many words with no bit.
pub fn zeros(alloc: Global, count: usize) -> Result<List<u64>, NoMemory>
    ensures { IfOk result (λ words. words ≡ replicate count 0) }
{
    let mut words = List::open();
    for _place in 0..count {
        words.push(alloc, 0)?;
    }
    Ok(words)
}

/// Adds the bits of other words.
pub(crate) fn add_bits(words: &mut List<u64>, others: &[u64])
    requires { length words.old ≡ length others.now }
    ensures { words.new ≡ both words.old others.now }
{
    for place in 0..others.len() {
        let word = *words.get(place) | others[place];
        words.set(place, word);
    }
}
