// A program with two answer sets, and a board of it.
ghost use Rattle.std.specs.Prelude.{◌≡◌, ◌↔◌, IfOk, IfSome, IsTrue, OnOk, length};
ghost use Rattle.ground_program.specs.Bounds.{IsCandidate};
ghost use Rattle.ground_program.specs.Program.{IsProgram};
ghost use Rattle.normal_program.specs.Normal.{IsAnswerSetN};
ghost use Rattle.bounds_board.specs.Board.{normal_of};
ghost use Rattle.trial_board.specs.Ready.{IsReady};

use crate::trials::facts::{is_answer, is_in_every};
use bounds_board::{Board, BoardSeat, Settled};
use ground_program::{Mode, Pair, Program, Set};
use item_list::NoMemory;
use normal_program::Normal;
use rule_normaliser::normalise;
use std::alloc::Global;
use trial_inputs::set_of;

// Of atoms 2 and 3 each excludes the other, and either gives atom 4. So 4, which is candidate 3, is
// in both answer sets, and candidates 1 and 2 are in one each.
pub const ONE_OF_TWO: &[u8] =
    b"1 2 1 1 3\n1 3 1 1 2\n1 4 1 0 2\n1 4 1 0 3\n0\n2 a\n3 b\n4 c\n0\nB+\n0\nB-\n1\n0\n1\n";

/// A mode, a program, its normal form, a board of it in that mode, a seat and a pair.
#[derive(Drop)]
pub struct Scene {
    pub mode: Mode,
    pub program: Program,
    pub normal: Normal,
    pub board: Board,
    pub seat: BoardSeat,
    pub pair: Pair,
}

/// Whether a number is that of a candidate.
pub fn is_candidate(normal: &Normal, cand: u32) -> bool
    ensures { IsTrue result ↔ IsCandidate normal.now.names cand }
{
    1 <= cand && cand as usize <= normal.names.len()
}

impl Scene {
    /// The scene of a program. None is one with too many variables, or want of memory.
    pub fn open(alloc: Global, program: Program, mode: Mode) -> Option<Scene>
        requires { IsProgram program }
        ensures { IfSome result
            (λ it. IsReady it.mode it.program it.normal it.board it.seat it.pair) }
    {
        match normalise(alloc, &program) {
            Err(_) => None,
            Ok(normal) => {
                let (board, seat) = Board::open(alloc, &normal, mode).ok()?;
                let pair = Pair::open(alloc, board.candidates()).ok()?;
                Some(Scene {
                    mode,
                    program,
                    normal,
                    board,
                    seat,
                    pair,
                })
            }
        }
    }

    /// Reads the board into the pair.
    pub fn read(&mut self)
        requires { IsReady self.old.mode self.old.program self.old.normal self.old.board
            self.old.seat self.old.pair }
        ensures { IsReady self.new.mode self.new.program self.new.normal self.new.board
            self.new.seat self.new.pair }
    {
        self.board.read_into(&mut self.seat, &mut self.pair);
    }

    /// Reports that a candidate is a consequence, in cautious mode alone. Whether that was done.
    pub fn report_in(&mut self, alloc: Global, cand: u32) -> Result<bool, NoMemory>
        requires { IsReady self.old.mode self.old.program self.old.normal self.old.board
            self.old.seat self.old.pair }
        ensures ready { OnOk result (IsReady self.new.mode self.new.program self.new.normal
            self.new.board self.new.seat self.new.pair) }
        ensures board { self.new.board ≡ self.old.board }
    {
        match self.mode {
            Mode::Brave => Ok(false),
            Mode::Cautious => self.report_in_every(alloc, cand),
        }
    }

    /// Reports in cautious mode that a candidate is in every answer set, where it is. Whether it is.
    fn report_in_every(&mut self, alloc: Global, cand: u32) -> Result<bool, NoMemory>
        requires ready { IsReady self.old.mode self.old.program self.old.normal self.old.board
            self.old.seat self.old.pair }
        requires cautious { self.old.mode ≡ Mode.Cautious }
        ensures ready { OnOk result (IsReady self.new.mode self.new.program self.new.normal
            self.new.board self.new.seat self.new.pair) }
        ensures board { self.new.board ≡ self.old.board }
    {
        if !is_candidate(&self.normal, cand) {
            return Ok(false);
        }
        let inside = is_in_every(alloc, &self.program, &self.normal, cand)?;
        if !inside {
            return Ok(false);
        }
        self.board.report_in(&mut self.seat, cand);
        Ok(true)
    }

    /// Whether a set is an answer set, so that what it shows may be reported.
    pub fn may_report(&self, alloc: Global, set: &Set) -> Result<bool, NoMemory>
        requires { IsReady self.now.mode self.now.program self.now.normal self.now.board
            self.now.seat self.now.pair }
        ensures { IfOk result
            (λ yes. IsTrue yes → IsAnswerSetN (normal_of self.now.board) set.now) }
    {
        let answer = is_answer(alloc, &self.program, &self.normal, set)?;
        Ok(answer)
    }

    /// Reports what the set of these bits shows, where it is an answer set. Whether it is.
    pub fn report_set(&mut self, alloc: Global, bits: u32) -> Result<bool, NoMemory>
        requires { IsReady self.old.mode self.old.program self.old.normal self.old.board
            self.old.seat self.old.pair }
        ensures ready { OnOk result (IsReady self.new.mode self.new.program self.new.normal
            self.new.board self.new.seat self.new.pair) }
        ensures board { self.new.board ≡ self.old.board }
    {
        if self.program.atoms >= 32 {
            return Ok(false);
        }
        let set = set_of(alloc, self.program.atoms, bits)?;
        if !self.may_report(alloc, &set)? {
            return Ok(false);
        }
        self.board.report_set(&mut self.seat, &set);
        Ok(true)
    }

    /// What a second seat that was told all finds of a candidate.
    pub fn is_settled_for_another(&mut self, cand: u32) -> Settled
        requires ready { IsReady self.old.mode self.old.program self.old.normal self.old.board
            self.old.seat self.old.pair }
        requires cand { IsCandidate self.old.normal.names cand }
    {
        let mut noted = self.board.note(&mut self.seat);
        self.board.is_settled(&mut noted, cand)
    }
}
