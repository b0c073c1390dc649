// The atomic steps: a load, and three kinds of fetch_or.
ghost use Rattle.std.specs.Prelude.{◌≡◌, ◌<◌, ◌+◌, ◌↔◌, ℕ, length, bit_or, IsTrue};
ghost use Rattle.anytime_core.specs.declared.event.Event.TheVariants.{ReadWord, ReportIn};
ghost use Rattle.anytime_core.specs.declared.event.Event.TheVariants.{ReportOut};
ghost use Rattle.anytime_core.specs.declared.event.Event.TheVariants.{ReportState};
ghost use Rattle.anytime_core.specs.Bits.{HasBit, words_for, all_words};
ghost use Rattle.anytime_core.specs.Truth.{IsTrueIn, IsTrueOut, IsCoherent};
ghost use Rattle.anytime_core.specs.Machine.{flag_of};
ghost use Rattle.bounds_board.specs.Rule.{IsView};
ghost use Rattle.bounds_board.specs.Plays.{Met};
ghost use Rattle.bounds_board.specs.Board.{IsSeatOf, normal_of, mode_of, view_of};

use crate::board::Board;
use crate::plays::{Load, PutIn, PutOut, PutState};
use crate::seat::BoardSeat;

impl Board {
    /// Loads a word, which the seat has then seen.
    pub(crate) fn load(&self, seat: &mut BoardSeat, place: usize) -> u64
        requires seat { IsSeatOf self.now seat.old }
        requires place { place < all_words (length (normal_of self.now).names) }
        ensures seat { IsSeatOf self.now seat.new }
        ensures viewed { IsView (view_of seat.old) × IsView (view_of seat.new) }
        ensures met { Met (view_of seat.old) (view_of seat.new) (ReadWord 0 place) place result }
    {
        self.table.shared.load::<Load>(&mut seat.seat, place)
    }

    /// Reports that the candidates of the bits of an in-word are consequences.
    pub(crate) fn put_in(&self, seat: &mut BoardSeat, word: usize, mask: u64)
        requires seat { IsSeatOf self.now seat.old }
        requires word { word < words_for (length (normal_of self.now).names) }
        requires bits { (bit : ℕ) → HasBit mask bit
            → IsTrueIn (normal_of self.now) (mode_of self.now) (1 + word) bit }
        ensures seat { IsSeatOf self.now seat.new }
        ensures viewed { IsView (view_of seat.old) × IsView (view_of seat.new) }
        ensures met { (found : ℕ) × Met (view_of seat.old) (view_of seat.new)
            (ReportIn 0 word mask) (1 + word) (bit_or found mask) }
    {
        self.table
            .shared
            .fetch_or::<PutIn>(&mut seat.seat, 1 + word, mask);
    }

    /// Reports that the candidates of the bits of an out-word aren't consequences.
    pub(crate) fn put_out(&self, seat: &mut BoardSeat, word: usize, mask: u64)
        requires seat { IsSeatOf self.now seat.old }
        requires word { word < words_for (length (normal_of self.now).names) }
        requires bits { (bit : ℕ) → HasBit mask bit
            → IsTrueOut (normal_of self.now) (mode_of self.now)
            (1 + words_for (length (normal_of self.now).names) + word) bit }
        ensures seat { IsSeatOf self.now seat.new }
        ensures viewed { IsView (view_of seat.old) × IsView (view_of seat.new) }
        ensures met { (found : ℕ) × Met (view_of seat.old) (view_of seat.new)
            (ReportOut 0 word mask) (1 + words_for (length (normal_of self.now).names) + word)
            (bit_or found mask) }
    {
        self.table
            .shared
            .fetch_or::<PutOut>(&mut seat.seat, 1 + self.side + word, mask);
    }

    /// Reports whether there is an answer set.
    pub(crate) fn put_state(&self, seat: &mut BoardSeat, coherent: bool)
        requires seat { IsSeatOf self.now seat.old }
        requires holds { IsTrue coherent ↔ IsCoherent (normal_of self.now) }
        ensures seat { IsSeatOf self.now seat.new }
        ensures viewed { IsView (view_of seat.old) × IsView (view_of seat.new) }
        ensures met { (found : ℕ) × Met (view_of seat.old) (view_of seat.new)
            (ReportState 0 coherent) 0 (bit_or found (flag_of coherent)) }
    {
        let mask = if coherent { 1 } else { 2 };
        self.table
            .shared
            .fetch_or::<PutState>(&mut seat.seat, 0, mask);
    }
}
