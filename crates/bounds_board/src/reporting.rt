// Reports to the board.
ghost use Rattle.std.specs.Prelude.{◌≡◌, ◌↔◌, ◌+◌, ◌<◌, ◌≤◌, ◌^◌, length, IsTrue};
ghost use Rattle.ground_program.specs.Bounds.{IsCandidate};
ghost use Rattle.normal_program.specs.Normal.{IsAnswerSetN};
ghost use Rattle.anytime_core.specs.Truth.{IsConsequenceN, IsCoherent};
ghost use Rattle.anytime_core.specs.Laws.{KnowsMore};
ghost use Rattle.bounds_board.specs.Board.{IsSeatOf, normal_of, mode_of, view_of, seen_of};
ghost use Rattle.bounds_board.specs.Reports.{HoldsIn, HoldsOut, HoldsState, IsMaskOf};
ghost use Rattle.bounds_board.specs.Reports.{HoldsSet, shows_atom};

use crate::board::Board;
use crate::seat::BoardSeat;
use ground_program::{Mode, Set};

impl Board {
    /// The candidate is a consequence.
    pub fn report_in(&self, seat: &mut BoardSeat, cand: u32)
        requires seat { IsSeatOf self.now seat.old }
        requires cand { IsCandidate (normal_of self.now).names cand }
        requires holds { IsConsequenceN (normal_of self.now) (mode_of self.now) cand }
        ensures seat { IsSeatOf self.now seat.new }
        ensures reported { HoldsIn (seen_of seat.new) cand }
        ensures more { KnowsMore (view_of seat.old).actor (view_of seat.new).actor }
    {
        self.put_in(seat, ((cand - 1) / 64) as usize, 1 << ((cand - 1) % 64));
    }

    /// The candidate isn't a consequence.
    pub fn report_out(&self, seat: &mut BoardSeat, cand: u32)
        requires seat { IsSeatOf self.now seat.old }
        requires cand { IsCandidate (normal_of self.now).names cand }
        requires holds { ¬ IsConsequenceN (normal_of self.now) (mode_of self.now) cand }
        ensures seat { IsSeatOf self.now seat.new }
        ensures reported { HoldsOut (normal_of self.now) (seen_of seat.new) cand }
        ensures more { KnowsMore (view_of seat.old).actor (view_of seat.new).actor }
    {
        self.put_out(seat, ((cand - 1) / 64) as usize, 1 << ((cand - 1) % 64));
    }

    /// Whether there is an answer set.
    pub fn report_coherence(&self, seat: &mut BoardSeat, coherent: bool)
        requires seat { IsSeatOf self.now seat.old }
        requires holds { IsTrue coherent ↔ IsCoherent (normal_of self.now) }
        ensures seat { IsSeatOf self.now seat.new }
        ensures reported { HoldsState (seen_of seat.new) coherent }
        ensures more { KnowsMore (view_of seat.old).actor (view_of seat.new).actor }
    {
        self.put_state(seat, coherent);
    }

    /// Reports what an answer set shows: each candidate that it shows, and that there is one.
    pub fn report_set(&self, seat: &mut BoardSeat, set: &Set)
        requires seat { IsSeatOf self.now seat.old }
        requires answer { IsAnswerSetN (normal_of self.now) set.now }
        ensures seat { IsSeatOf self.now seat.new }
        ensures reported { HoldsSet (normal_of self.now) (mode_of self.now) set.now
            (seen_of seat.new) }
        ensures more { KnowsMore (view_of seat.old).actor (view_of seat.new).actor }
    {
        self.put_state(seat, true);
        for word in 0..self.side {
            let mask = self.shown_mask(set, 64 * word);
            match self.mode {
                Mode::Cautious => self.put_out(seat, word, mask),
                Mode::Brave => self.put_in(seat, word, mask),
            }
        }
    }

    /// The candidates that the set shows, of the 64 from a place on.
    fn shown_mask(&self, set: &Set, first: usize) -> u64
        requires fits { first + 64 < 2 ^ 64 }
        requires front { first ≤ length (normal_of self.now).names }
        ensures { IsMaskOf (normal_of self.now) (mode_of self.now) set.now first result }
    {
        let atoms = self.atoms.as_slice();
        let end = atoms.len().min(first + 64);
        let mut mask = 0;
        for place in first..end {
            if shows(self.mode, set, atoms[place]) {
                mask |= 1 << (place - first);
            }
        }
        mask
    }
}

/// Whether a set shows the candidate of an atom.
fn shows(mode: Mode, set: &Set, atom: u32) -> bool
    ensures { result ≡ shows_atom mode set.now atom }
{
    let there = set.as_slice().get(atom as usize).copied().unwrap_or(false);
    match mode {
        Mode::Cautious => !there,
        Mode::Brave => there,
    }
}
