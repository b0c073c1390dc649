// Reads of the board.
ghost use Rattle.std.specs.Prelude.{◌≡◌, ◌+◌, length};
ghost use Rattle.ground_program.specs.Bounds.{IsCandidate, IsPairOver};
ghost use Rattle.anytime_core.specs.Bits.{IsPairOf, all_words};
ghost use Rattle.anytime_core.specs.Truth.{EnclosesN};
ghost use Rattle.anytime_core.specs.Laws.{KnowsMore};
ghost use Rattle.bounds_board.specs.Board.{IsSeatOf, normal_of, mode_of, view_of, seen_of};
ghost use Rattle.bounds_board.specs.Reads.{HasMetAll, LiesWithin, IsSettledBy};

use crate::board::Board;
use crate::last_read::LastRead;
use crate::seat::BoardSeat;
use crate::settled::Settled;
use anytime_core::{show_in_bits, show_out_bits};
use ground_program::Pair;

impl Board {
    /// Loads each word once, and gives the pair of what the seat has then seen. It encloses the
    /// consequences and lies within all that the seat had seen.
    pub fn read_into(&self, seat: &mut BoardSeat, pair: &mut Pair)
        requires seat { IsSeatOf self.now seat.old }
        requires over { IsPairOver (length (normal_of self.now).names) pair.old }
        ensures seat { IsSeatOf self.now seat.new }
        ensures met { HasMetAll (normal_of self.now) (view_of seat.old) (view_of seat.new) }
        ensures pair { IsPairOf (length (normal_of self.now).names) (seen_of seat.new) pair.new }
        ensures encloses { EnclosesN (normal_of self.now) (mode_of self.now) pair.new }
        ensures more { KnowsMore (view_of seat.old).actor (view_of seat.new).actor }
        ensures within { LiesWithin (normal_of self.now) (seen_of seat.old) pair.new }
    {
        self.load(seat, 0);
        for word in 0..self.side {
            let inside = self.load(seat, 1 + word);
            show_in_bits(inside, 64 * word, &mut pair.lower);
            let outside = self.load(seat, 1 + self.side + word);
            show_out_bits(outside, 64 * word, &mut pair.upper);
        }
    }

    /// Reads as `read_into` does, where the pair is that of the reader's last read: each word is
    /// loaded once, and what the pair has is written anew only for words that changed since then.
    pub fn read_again(&self, seat: &mut BoardSeat, last: &mut LastRead)
        requires seat { IsSeatOf self.now seat.old }
        requires over { IsPairOver (length (normal_of self.now).names) last.old }
        ensures seat { IsSeatOf self.now seat.new }
        ensures met { HasMetAll (normal_of self.now) (view_of seat.old) (view_of seat.new) }
        ensures pair { IsPairOf (length (normal_of self.now).names) (seen_of seat.new) last.new }
        ensures encloses { EnclosesN (normal_of self.now) (mode_of self.now) last.new }
        ensures more { KnowsMore (view_of seat.old).actor (view_of seat.new).actor }
        ensures within { LiesWithin (normal_of self.now) (seen_of seat.old) last.new }
    {
        self.load(seat, 0);
        for at in 0..self.side {
            let inside = self.load(seat, 1 + at);
            let outside = self.load(seat, 1 + self.side + at);
            last.take(at, inside, outside);
        }
    }

    /// What is known of a candidate, by a look at its in-word and, where that hasn't its bit, at
    /// its out-word.
    pub fn is_settled(&self, seat: &mut BoardSeat, cand: u32) -> Settled
        requires seat { IsSeatOf self.now seat.old }
        requires cand { IsCandidate (normal_of self.now).names cand }
        ensures seat { IsSeatOf self.now seat.new }
        ensures settled { IsSettledBy (normal_of self.now) (view_of seat.old) (view_of seat.new)
            cand result }
        ensures more { KnowsMore (view_of seat.old).actor (view_of seat.new).actor }
    {
        let word = ((cand - 1) / 64) as usize;
        let bit = (cand - 1) % 64;
        if self.load(seat, 1 + word) >> bit & 1 == 1 {
            return Settled::Inside;
        }
        if self.load(seat, 1 + self.side + word) >> bit & 1 == 1 {
            return Settled::Outside;
        }
        Settled::Not
    }
}
