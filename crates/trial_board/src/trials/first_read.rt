// What a client has before its first read, where something was reported already.
ghost use Rattle.trial_board.specs.Ready.{IsReady};

use crate::trials::scene::{ONE_OF_TWO, Scene};
use client_reads::Client;
use ground_program::{Mode, Pair};
use item_list::NoMemory;
use std::alloc::Global;
use std::test::Fail;
use trial_inputs::program_of;

fn are_same(one: &Pair, other: &Pair) -> bool {
    one.lower.as_slice() == other.lower.as_slice() && one.upper.as_slice() == other.upper.as_slice()
}

/// Whether a client has a pair until it reads, and then candidate 3 as inside.
fn changes(mut client: Client, opened: &Pair) -> bool {
    let before = are_same(client.pair(), opened);
    client.read();
    let lower = client.pair().lower.as_slice() == [false, false, true].as_slice();
    let upper = client.pair().upper.as_slice() == [true, true, true].as_slice();
    before && lower && upper
}

/// Whether of two clients of one board, which has a report on candidate 3, the one that never reads
/// ends with the pair of `Pair::open`, and the other has it until it reads.
fn begin_open(alloc: Global, mut scene: Scene) -> Result<bool, NoMemory>
    requires { IsReady scene.mode scene.program scene.normal scene.board scene.seat
        scene.pair }
{
    let reported = scene.report_in(alloc, 3)?;
    let Scene {
        program,
        normal,
        board,
        mut seat,
        pair,
        ..
    } = scene;
    let noted = board.note(&mut seat);
    let one = Client::open(alloc, &program, &normal, &board, seat)?;
    let other = Client::open(alloc, &program, &normal, &board, noted)?;
    Ok(reported && are_same(&one.into_pair(), &pair) && changes(other, &pair))
}

fn is_shown(alloc: Global) -> Result<bool, NoMemory> {
    let Some(program) = program_of(alloc, ONE_OF_TWO) else {
        return Ok(false);
    };
    match Scene::open(alloc, program, Mode::Cautious) {
        None => Ok(false),
        Some(scene) => begin_open(alloc, scene),
    }
}

#[test]
fn a_client_has_the_open_pair_until_it_reads(rt: HostRuntime) -> Result<(), Fail> {
    assert!(rt; is_shown(rt.alloc())?);
    Ok(())
}
