// One seat reads again and again in one thread while another reports in a second one. Then the
// reader learns what the other had seen.
ghost use Rattle.std.specs.Prelude.{length};
ghost use Rattle.ground_program.specs.Bounds.{IsPairOver};
ghost use Rattle.normal_program.specs.Normal.{IsAnswerSetN};
ghost use Rattle.bounds_board.specs.Board.{IsSeatOf, normal_of};
ghost use Rattle.trial_board.specs.Ready.{IsReady};

use crate::trials::scene::{ONE_OF_TWO, Scene};
use bounds_board::{Board, BoardSeat};
use ground_program::{Mode, Pair, Set};
use item_list::NoMemory;
use std::alloc::Global;
use std::test::Fail;
use std::thread::{Threads, join};
use trial_inputs::{program_of, set_of};

/// What a reader ends with.
#[derive(Drop)]
struct Reading {
    seat: BoardSeat,
    pair: Pair,
}

/// Reads the board many times.
fn read_often(board: &Board, mut seat: BoardSeat, mut pair: Pair) -> Reading
    requires seat { IsSeatOf board.now seat }
    requires over { IsPairOver (length (normal_of board.now).names) pair }
    ensures seat { IsSeatOf board.now result.seat }
    ensures over { IsPairOver (length (normal_of board.now).names) result.pair }
{
    for _ in 0..1000u32 {
        board.read_into(&mut seat, &mut pair);
    }
    Reading { seat, pair }
}

/// Reports what an answer set shows.
fn report(board: &Board, mut seat: BoardSeat, set: &Set) -> BoardSeat
    requires seat { IsSeatOf board.now seat }
    requires answer { IsAnswerSetN (normal_of board.now) set.now }
    ensures { IsSeatOf board.now result }
{
    board.report_set(&mut seat, set);
    seat
}

/// What a reader ends with that reads while an answer set is reported, and then learns a note of the
/// other seat.
fn reads_at_once<R: Threads>(
    rt: &R,
    board: &Board,
    mut seat: BoardSeat,
    pair: Pair,
    set: &Set,
) -> Pair
    requires seat { IsSeatOf board.now seat }
    requires over { IsPairOver (length (normal_of board.now).names) pair }
    requires answer { IsAnswerSetN (normal_of board.now) set.now }
{
    let other = board.note(&mut seat);
    let (reading, mut other) = join(
        rt,
        move || read_often(board, seat, pair),
        move || report(board, other, set),
    );
    let noted = board.note(&mut other);
    learn(board, reading, noted)
}

/// What a reader reads once it has learnt what a noted seat has seen.
fn learn(board: &Board, reading: Reading, noted: BoardSeat) -> Pair
    requires seat { IsSeatOf board.now reading.seat }
    requires over { IsPairOver (length (normal_of board.now).names) reading.pair }
    requires noted { IsSeatOf board.now noted }
{
    let Reading { mut seat, mut pair } = reading;
    board.learn(&mut seat, noted);
    board.read_into(&mut seat, &mut pair);
    pair
}

/// Whether a pair has what the answer set of 2 and 4 shows: candidate 2 as outside in cautious mode,
/// and the others as inside in brave mode.
pub fn has_what_is_shown(mode: Mode, pair: &Pair) -> bool {
    let lower = pair.lower.as_slice();
    let upper = pair.upper.as_slice();
    match mode {
        Mode::Cautious => {
            lower == [false, false, false].as_slice() && upper == [true, false, true].as_slice()
        }
        Mode::Brave => {
            lower == [true, false, true].as_slice() && upper == [true, true, true].as_slice()
        }
    }
}

/// Whether a reader has what was reported at once: the answer set of 2 and 4.
fn is_learnt<R: Threads>(rt: &R, alloc: Global, scene: Scene) -> Result<bool, NoMemory>
    requires { IsReady scene.mode scene.program scene.normal scene.board scene.seat scene.pair }
{
    let set = set_of(alloc, 4, 0b1010)?;
    if !scene.may_report(alloc, &set)? {
        return Ok(false);
    }
    let Scene {
        mode,
        board,
        seat,
        pair,
        ..
    } = scene;
    let read = reads_at_once(rt, &board, seat, pair, &set);
    Ok(has_what_is_shown(mode, &read))
}

fn is_shown<R: Threads>(rt: &R, alloc: Global, mode: Mode) -> Result<bool, NoMemory> {
    let Some(program) = program_of(alloc, ONE_OF_TWO) else {
        return Ok(false);
    };
    match Scene::open(alloc, program, mode) {
        None => Ok(false),
        Some(scene) => is_learnt(rt, alloc, scene),
    }
}

#[test]
fn a_reader_learns_what_is_reported_meanwhile(rt: HostRuntime) -> Result<(), Fail> {
    assert!(rt; is_shown(&rt, rt.alloc(), Mode::Cautious)?);
    assert!(rt; is_shown(&rt, rt.alloc(), Mode::Brave)?);
    Ok(())
}
