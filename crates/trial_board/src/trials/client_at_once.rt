// A client reads again and again in one thread while a seat reports in a second one. Then the client
// learns what that seat had seen.
ghost use Rattle.std.specs.Prelude.{◌≡◌};
ghost use Rattle.normal_program.specs.Normal.{IsAnswerSetN};
ghost use Rattle.bounds_board.specs.Board.{IsSeatOf, normal_of};
ghost use Rattle.trial_board.specs.Ready.{IsReady};

use crate::trials::at_once::has_what_is_shown;
use crate::trials::scene::{ONE_OF_TWO, Scene};
use bounds_board::{Board, BoardSeat};
use client_reads::Client;
use ground_program::{Mode, Pair, Set};
use item_list::NoMemory;
use std::alloc::Global;
use std::test::Fail;
use std::thread::{Threads, join_mut};
use trial_inputs::{program_of, set_of};

/// Reads the board many times.
fn read_often(client: &mut Client)
    ensures { client.new.board ≡ client.old.board }
{
    for _ in 0..1000u32 {
        client.read();
    }
}

/// What a client ends with that reads while a seat reports an answer set, and then learns a note of
/// that seat.
fn reads_at_once<R: Threads>(
    rt: &R,
    board: &Board,
    mut client: Client,
    mut seat: BoardSeat,
    set: &Set,
) -> Pair
    requires client { client.board ≡ board.now }
    requires seat { IsSeatOf board.now seat }
    requires answer { IsAnswerSetN (normal_of board.now) set.now }
{
    join_mut(
        rt,
        &mut || read_often(&mut client),
        &mut || board.report_set(&mut seat, set),
    );
    let noted = board.note(&mut seat);
    client.learn(noted);
    client.read();
    client.into_pair()
}

/// Whether a client has what was reported at once: the answer set of 2 and 4.
fn is_learnt<R: Threads>(rt: &R, alloc: Global, scene: Scene) -> Result<bool, NoMemory>
    requires { IsReady scene.mode scene.program scene.normal scene.board scene.seat scene.pair }
{
    let set = set_of(alloc, 4, 0b1010)?;
    if !scene.may_report(alloc, &set)? {
        return Ok(false);
    }
    let Scene {
        mode,
        program,
        normal,
        board,
        mut seat,
        ..
    } = scene;
    let noted = board.note(&mut seat);
    let client = Client::open(alloc, &program, &normal, &board, noted)?;
    let read = reads_at_once(rt, &board, client, seat, &set);
    Ok(has_what_is_shown(mode, &read))
}

fn is_shown<R: Threads>(rt: &R, alloc: Global, mode: Mode) -> Result<bool, NoMemory> {
    let Some(program) = program_of(alloc, ONE_OF_TWO) else {
        return Ok(false);
    };
    match Scene::open(alloc, program, mode) {
        None => Ok(false),
        Some(scene) => is_learnt(rt, alloc, scene),
    }
}

#[test]
fn a_client_learns_what_a_seat_reports_meanwhile(rt: HostRuntime) -> Result<(), Fail> {
    assert!(rt; is_shown(&rt, rt.alloc(), Mode::Cautious)?);
    assert!(rt; is_shown(&rt, rt.alloc(), Mode::Brave)?);
    Ok(())
}
