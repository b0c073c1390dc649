// What each kind of step tells its seat. Each is one event of the machine.
ghost use Rattle.bounds_board.specs.Plays.{Loads, ReportsIn, ReportsOut, ReportsState};
ghost use Rattle.bounds_board.specs.Plays.{teller, note_of, learner, spent_view};

use crate::view::View;
use atomic_table::{Join, Play, Split};

/// A load of a word.
pub(crate) struct Load;

impl Play<(), View> for Load {
    ghost then = { Loads };
}

/// A report that candidates are consequences.
pub(crate) struct PutIn;

impl Play<(), View> for PutIn {
    ghost then = { ReportsIn };
}

/// A report that candidates aren't.
pub(crate) struct PutOut;

impl Play<(), View> for PutOut {
    ghost then = { ReportsOut };
}

/// A report on whether there is an answer set.
pub(crate) struct PutState;

impl Play<(), View> for PutState {
    ghost then = { ReportsState };
}

/// A seat makes a second one that has seen the same.
pub(crate) struct Notes;

impl Split<View> for Notes {
    ghost left = { teller };

    ghost right = { note_of };
}

/// A seat takes in what another has seen.
pub(crate) struct Learns;

impl Join<View> for Learns {
    ghost both = { learner };

    ghost spent = { spent_view };
}
