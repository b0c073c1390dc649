// A client of a board.
ghost use Rattle.std.specs.Prelude.{◌≡◌, ◌≤◌, [], false, true, length, replicate, IfOk};
ghost use Rattle.ground_program.specs.Program.{IsProgram};
ghost use Rattle.ground_program.specs.Meaning.{IsSetOver};
ghost use Rattle.ground_program.specs.Bounds.{Encloses};
ghost use Rattle.normal_program.specs.Limit.{IsNormal};
ghost use Rattle.normal_program.specs.Normal.{IsNormalFormOf};
ghost use Rattle.anytime_core.specs.Bits.{IsPairOf};
ghost use Rattle.anytime_core.specs.Laws.{KnowsMore};
ghost use Rattle.bounds_board.specs.Plays.{learner};
ghost use Rattle.bounds_board.specs.Board.{IsSeatOf, normal_of, mode_of, view_of, seen_of};
ghost use Rattle.bounds_board.specs.Reads.{HasMetAll, LiesWithin};
ghost use Rattle.client_reads.specs.Offer.{HasOffered, HasReported, TellsUnits};

use crate::offered::Offered;
use bounds_board::{Board, BoardSeat, LastRead};
use clause_store::Budget;
use ground_program::{Pair, Program, Set, is_model};
use item_list::NoMemory;
use minimality_test::{Minimality, smaller};
use normal_program::Normal;
use std::alloc::Global;
use std::marker::Model;

/// The holder of one seat of a board. It reads bounds, learns what other seats have seen, and offers
/// answer sets. Only `open` and `offer` take memory.
#[derive(Drop)]
pub struct Client<'a> {
    program: &'a Program,
    normal: &'a Normal,
    board: &'a Board,
    seat: BoardSeat,
    last: LastRead,
}

impl<'a> Model for Client<'a> {
    ghost use Rattle.client_reads.specs.Client.{Watch, IsWatch};

    ghost Value = { Watch };

    ghost view = { λ it. record {
      program = it.program.now;
      normal = it.normal.now;
      board = it.board.now;
      seat = it.seat;
      pair = it.last;
    } };

    ghost invariant = { λ it.
        IsWatch it.program.now it.normal.now it.board.now it.seat it.last };
}

impl<'a> Client<'a> {
    /// A client of the board of a program, on a seat of that board. Its pair is that of
    /// `Pair::open` until it reads.
    pub fn open(
        alloc: Global,
        program: &'a Program,
        normal: &'a Normal,
        board: &'a Board,
        seat: BoardSeat,
    ) -> Result<Client<'a>, NoMemory>
        requires valid { IsProgram program.now }
        requires normal { IsNormal normal.now }
        requires form { IsNormalFormOf normal.now program.now }
        requires board { normal_of board.now ≡ normal.now }
        requires seat { IsSeatOf board.now seat }
        ensures { IfOk result (λ client. client ≡ record {
          program = program.now;
          normal = normal.now;
          board = board.now;
          seat = seat;
          pair = record {
            lower = replicate (length program.now.names) false;
            upper = replicate (length program.now.names) true;
          };
        }) }
    {
        let last = LastRead::open(alloc, board.candidates())?;
        Ok(Client {
            program,
            normal,
            board,
            seat,
            last,
        })
    }

    /// Reads the board: each of its words is loaded once. The pair then encloses the consequences
    /// of the program, lies within all that the client had seen or learnt, and holds its reports.
    pub fn read(&mut self)
        ensures met { HasMetAll self.old.normal (view_of self.old.seat) (view_of self.new.seat) }
        ensures pair { IsPairOf (length self.old.normal.names) (seen_of self.new.seat)
            self.new.pair }
        ensures encloses { Encloses self.old.program (mode_of self.old.board) self.new.pair }
        ensures more { KnowsMore (view_of self.old.seat).actor (view_of self.new.seat).actor }
        ensures within { LiesWithin self.old.normal (seen_of self.old.seat) self.new.pair }
        ensures kept { self.new ≡ record self.old { seat = self.new.seat; pair = self.new.pair } }
    {
        self.board.read_again(&mut self.seat, &mut self.last);
    }

    /// The pair of the last read, or that of `Pair::open` before the first.
    pub fn pair(&self) -> &Pair
        ensures same { result.now ≡ self.now.pair }
        ensures encloses { Encloses self.now.program (mode_of self.now.board) result.now }
    {
        self.last.pair()
    }

    /// The pair of the last read, or that of `Pair::open` before the first.
    pub fn into_pair(self) -> Pair
        ensures same { result ≡ self.entry.pair }
        ensures encloses { Encloses self.entry.program (mode_of self.entry.board) result }
    {
        self.last.into_pair()
    }

    /// Ends a noted seat of the same board. From then on the client has seen what both had seen.
    pub fn learn(&mut self, noted: BoardSeat)
        requires { IsSeatOf self.old.board noted }
        ensures learnt { view_of self.new.seat
            ≡ learner (view_of self.old.seat) (view_of noted) }
        ensures kept { self.new ≡ record self.old { seat = self.new.seat } }
    {
        self.board.learn(&mut self.seat, noted);
    }

    /// Tests whether the set is an answer set and, where it is, reports what it shows. Nothing else
    /// is reported. The budget, which is unused, counts what the test for a smaller set learns.
    pub fn offer(&mut self, alloc: Global, set: &Set, budget: &mut Budget) -> Offered
        requires over { IsSetOver self.old.program.atoms set.now }
        requires unused { budget.old.units ≡ [] }
        requires some { 1 ≤ budget.old.limit }
        ensures answer { HasOffered self.old.program self.old.normal set.now budget.old budget.new
            result }
        ensures reported { HasReported self.old self.new set.now result }
        ensures more { KnowsMore (view_of self.old.seat).actor (view_of self.new.seat).actor }
        ensures kept { self.new ≡ record self.old { seat = self.new.seat } }
    {
        let offered = judge(alloc, self.program, self.normal, set, budget);
        if let Offered::Taken = offered {
            self.board.report_set(&mut self.seat, set);
        }
        offered
    }
}

/// Whether the set is an answer set of the program, by its normal form.
fn judge(
    alloc: Global,
    program: &Program,
    normal: &Normal,
    set: &Set,
    budget: &mut Budget,
) -> Offered
    requires valid { IsProgram program.now }
    requires normal { IsNormal normal.now }
    requires form { IsNormalFormOf normal.now program.now }
    requires over { IsSetOver program.now.atoms set.now }
    requires unused { budget.old.units ≡ [] }
    requires some { 1 ≤ budget.old.limit }
    ensures { HasOffered program.now normal.now set.now budget.old budget.new result }
{
    if let Err(broken) = is_model(program, set) {
        return Offered::Broken(broken);
    }
    match smaller(alloc, normal, set, budget) {
        Minimality::Minimal => Offered::Taken,
        Minimality::Smaller(part) => Offered::Smaller(part),
        Minimality::Spent => spent(alloc, budget),
        Minimality::NoMemory => Offered::NoMemory,
    }
}

/// A used-up budget as an answer, with a copy of what it counted.
fn spent(alloc: Global, budget: &Budget) -> Offered
    ensures { TellsUnits budget.now.units result }
{
    match budget.units().copy(alloc) {
        Ok(units) => Offered::Spent(units),
        Err(_) => Offered::NoMemory,
    }
}
