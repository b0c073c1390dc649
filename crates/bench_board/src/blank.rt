// The empty set, and whether it is an answer set.
ghost use Rattle.std.specs.Prelude.{◌≡◌, ◌+◌, false, replicate, IfOk, IsTrue};
ghost use Rattle.ground_program.specs.Meaning.{IsSetOver};
ghost use Rattle.ground_program.specs.Program.{IsProgram};
ghost use Rattle.normal_program.specs.Limit.{IsNormal};
ghost use Rattle.normal_program.specs.Normal.{IsAnswerSetN, IsNormalFormOf};
ghost use Rattle.bench_board.specs.Blank.{IsEmpty};

use bounds_board::Board;
use clause_store::Budget;
use client_reads::{Client, Offered};
use ground_program::{Mode, Program, Set};
use item_list::NoMemory;
use normal_program::{Normal, normal_form_means_the_program};
use std::alloc::Global;

/// The empty set of so many atoms.
pub fn empty_set(alloc: Global, atoms: u32) -> Result<Set, NoMemory>
    ensures over { IfOk result (IsSetOver atoms) }
    ensures empty { IfOk result IsEmpty }
{
    let mut set = Set::open();
    set.push(alloc, false)?;
    for _atom in 0..atoms {
        set.push(alloc, false)?;
    }
    Ok(set)
}

/// Whether a set is an answer set: whether a client of a board of its own has it taken.
pub fn is_answer(
    alloc: Global,
    program: &Program,
    normal: &Normal,
    set: &Set,
) -> Result<bool, NoMemory>
    requires valid { IsProgram program.now }
    requires normal { IsNormal normal.now }
    requires form { IsNormalFormOf normal.now program.now }
    requires over { IsSetOver program.now.atoms set.now }
    ensures { IfOk result (λ yes. IsTrue yes → IsAnswerSetN normal.now set.now) }
{
    normal_form_means_the_program();
    let (board, seat) = Board::open(alloc, normal, Mode::Cautious)?;
    let mut client = Client::open(alloc, program, normal, &board, seat)?;
    let mut budget = Budget::new(1);
    match client.offer(alloc, set, &mut budget) {
        Offered::Taken => Ok(true),
        _ => Ok(false),
    }
}
