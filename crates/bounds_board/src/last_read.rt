// What a reader keeps from one read of a board to the next.
ghost use Rattle.std.specs.Prelude.{◌≡◌, ◌<◌, ◌≤◌, ◌+◌, ◌*◌, ◌^◌, false, true, length, replicate};
ghost use Rattle.std.specs.Prelude.{IfOk};
ghost use Rattle.ground_program.specs.Bounds.{IsPairOver};
ghost use Rattle.anytime_core.specs.Showing.{IsShown, IsShownNot};
ghost use Rattle.bounds_board.specs.Last.{Shows, says_in, says_out};

use anytime_core::{show_in_bits, show_out_bits, words_over, zeros};
use ground_program::{Bits, Pair};
use item_list::{List, NoMemory};
use std::alloc::Global;
use std::marker::Model;

/// The words of both sides as a reader last loaded them, and the pair that they make. Contracts see
/// the pair. It serves `Board::read_again`, which does further work only for words that changed.
#[derive(Drop)]
pub struct LastRead {
    ins: List<u64>,
    outs: List<u64>,
    pair: Pair,
}

impl Model for LastRead {
    ghost use Rattle.ground_program.specs.declared.pair.Pair.{Pair};
    ghost use Rattle.bounds_board.specs.Last.{Shows, says_in, says_out};

    ghost Value = { Pair };

    ghost view = { λ it. it.pair };

    ghost invariant = { λ it.
        Shows says_in it.ins it.pair.lower × Shows says_out it.outs it.pair.upper };
}

impl LastRead {
    /// No word was loaded yet. The pair is that of `Pair::open`.
    pub fn open(alloc: Global, candidates: u32) -> Result<LastRead, NoMemory>
        ensures lower { IfOk result (λ last. last.lower ≡ replicate candidates false) }
        ensures upper { IfOk result (λ last. last.upper ≡ replicate candidates true) }
        ensures over { IfOk result (λ last. IsPairOver candidates last) }
    {
        let ins = zeros(alloc, words_over(candidates))?;
        let outs = zeros(alloc, words_over(candidates))?;
        let pair = Pair::open(alloc, candidates)?;
        Ok(LastRead { ins, outs, pair })
    }

    /// The pair of the words as they were last loaded.
    pub fn pair(&self) -> &Pair
        ensures { result.now ≡ self.now }
    {
        &self.pair
    }

    /// The pair of the words as they were last loaded.
    pub fn into_pair(self) -> Pair
        ensures { result ≡ self }
    {
        self.pair
    }

    /// Takes in the in-word and the out-word of a place.
    pub(crate) fn take(&mut self, word: usize, inside: u64, outside: u64)
        requires over { IsPairOver (length self.old.lower) self.old }
        requires word { 64 * word < length self.old.lower }
        requires fits { 64 * word + 64 < 2 ^ 64 }
        ensures lower { IsShown inside (64 * word) self.old.lower self.new.lower }
        ensures upper { IsShownNot outside (64 * word) self.old.upper self.new.upper }
    {
        take_in(&mut self.ins, word, inside, &mut self.pair.lower);
        take_out(&mut self.outs, word, outside, &mut self.pair.upper);
    }
}

/// Takes in an in-word. Where it is as it was, there is nothing to do.
fn take_in(words: &mut List<u64>, word: usize, inside: u64, bits: &mut Bits)
    requires shows { Shows says_in words.old bits.old }
    requires word { 64 * word < length bits.old }
    requires fits { 64 * word + 64 < 2 ^ 64 }
    ensures shows { Shows says_in words.new bits.new }
    ensures shown { IsShown inside (64 * word) bits.old bits.new }
{
    if *words.get(word) != inside {
        words.set(word, inside);
        show_in_bits(inside, 64 * word, bits);
    }
}

/// Takes in an out-word. Where it is as it was, there is nothing to do.
fn take_out(words: &mut List<u64>, word: usize, outside: u64, bits: &mut Bits)
    requires shows { Shows says_out words.old bits.old }
    requires word { 64 * word < length bits.old }
    requires fits { 64 * word + 64 < 2 ^ 64 }
    ensures shows { Shows says_out words.new bits.new }
    ensures shown { IsShownNot outside (64 * word) bits.old bits.new }
{
    if *words.get(word) != outside {
        words.set(word, outside);
        show_out_bits(outside, 64 * word, bits);
    }
}
