// Seats tell each other what they have seen.
ghost use Rattle.std.specs.Prelude.{◌≡◌};
ghost use Rattle.bounds_board.specs.Plays.{teller, note_of, learner};
ghost use Rattle.bounds_board.specs.Board.{IsSeatOf, view_of, seen_of};

use crate::board::Board;
use crate::plays::{Learns, Notes};
use crate::seat::BoardSeat;

impl Board {
    /// A second seat that has seen the same.
    pub fn note(&self, seat: &mut BoardSeat) -> BoardSeat
        requires { IsSeatOf self.now seat.old }
        ensures seat { IsSeatOf self.now seat.new }
        ensures kept { view_of seat.new ≡ teller (view_of seat.old) }
        ensures of_board { IsSeatOf self.now result }
        ensures noted { view_of result ≡ note_of (view_of seat.old) }
        ensures same { seen_of result ≡ seen_of seat.old }
    {
        let noted = self.table.shared.split_seat::<Notes>(&mut seat.seat);
        BoardSeat { seat: noted }
    }

    /// Ends the noted seat. From then on the first one has seen what both had seen.
    pub fn learn(&self, seat: &mut BoardSeat, noted: BoardSeat)
        requires seat { IsSeatOf self.now seat.old }
        requires noted { IsSeatOf self.now noted }
        ensures seat { IsSeatOf self.now seat.new }
        ensures learnt { view_of seat.new ≡ learner (view_of seat.old) (view_of noted) }
    {
        let BoardSeat { seat: noted } = noted;
        self.table.shared.join_seat::<Learns>(&mut seat.seat, noted);
    }
}
