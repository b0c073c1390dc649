// A seat of a board.
use crate::view::View;
use atomic_table::Seat;
use std::marker::Model;

/// The right to read and report on one board, for one client at a time. It has no bytes. It may be
/// handed to another thread. Contracts see the table that it belongs to and what it knows.
#[derive(Drop)]
pub struct BoardSeat {
    pub(crate) seat: Seat<(), View>,
}

impl Model for BoardSeat {
    ghost use Rattle.std.specs.Prelude.{◌≡◌, []};
    ghost use Rattle.bounds_board.specs.Rule.{Place, IsView};

    ghost Value = { Place };

    ghost view = { λ it. record { table = it.seat.table_id; view = it.seat.me.0 } };

    ghost invariant = { λ it. (it.seat.me.1 ≡ []) × IsView it.seat.me.0 };
}
