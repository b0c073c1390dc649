//! The shared board: threads report on one table of words which candidates are consequences and
//! which aren't, and read at any time a pair of bounds that encloses the consequences. There is no
//! lock, and nothing takes memory once the board is open.
#![tactic(auto)]

mod board;
mod last_read;
mod opening;
mod plays;
mod reading;
mod reporting;
mod seat;
mod settled;
mod steps;
mod telling;
mod view;

pub use board::Board;
pub use last_read::LastRead;
pub use seat::BoardSeat;
pub use settled::Settled;
pub use view::{About, BoardRule, View};
