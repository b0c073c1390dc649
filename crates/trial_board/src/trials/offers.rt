// Sets that are offered to a client: what is answered, and what the client then reads.
ghost use Rattle.std.specs.Prelude.{◌≡◌, OnOk};
ghost use Rattle.trial_board.specs.Ready.{IsReady};

use crate::trials::scene::{ONE_OF_TWO, Scene};
use clause_store::Budget;
use client_reads::{Client, Offered};
use ground_program::{Broken, Mode, Program, Set};
use item_list::NoMemory;
use std::alloc::Global;
use std::test::Fail;
use trial_inputs::{program_of, set_of};

// 2 or 3, and 4 or 5, give 6, and 6 gives all of them. No part of the five keeps these rules, which
// unit propagation alone doesn't show. The named atoms are 6, and 7, which no rule gives.
const ALL_OR_NONE: &[u8] = b"8 2 2 3 0 0\n8 2 4 5 0 0\n1 6 2 0 2 4\n1 6 2 0 2 5\n1 6 2 0 3 4\n\
    1 6 2 0 3 5\n1 2 1 0 6\n1 3 1 0 6\n1 4 1 0 6\n1 5 1 0 6\n0\n6 a\n7 b\n0\nB+\n0\nB-\n1\n0\n1\n";

/// What a client is answered.
#[derive(Drop, Clone, Copy, PartialEq, Eq)]
enum Answer {
    Taken,
    /// The first rule that fails.
    Rule(u32),
    /// The first atom that misses the compute statement.
    Compute(u32),
    /// A proper subset was found.
    Smaller,
    /// As many clauses were counted as the limit says.
    Spent,
    /// A set that is no proper subset, another number of clauses, or want of memory.
    Wrong,
}

/// Sets of a program's atoms, each by a bit for every atom from atom 1 on, that one client offers
/// in turn, and what the last is answered. Which candidates a read then has in its upper bound
/// where the board is in cautious mode, and which in its lower one where it is in brave mode.
struct Row {
    shows: &'static str,
    text: &'static [u8],
    sets: &'static [u32],
    limit: u32,
    answer: Answer,
    upper: &'static [bool],
    lower: &'static [bool],
}

static ROWS: [Row; 9] = [
    Row {
        shows: "an answer set is taken: what it lacks is outside, or what it has is inside",
        text: ONE_OF_TWO,
        sets: &[0b1010],
        limit: 1,
        answer: Answer::Taken,
        upper: &[true, false, true],
        lower: &[true, false, true],
    },
    Row {
        shows: "two answer sets are taken: what either lacks is outside, or what either has is inside",
        text: ONE_OF_TWO,
        sets: &[0b1010, 0b1100],
        limit: 1,
        answer: Answer::Taken,
        upper: &[false, false, true],
        lower: &[true, true, true],
    },
    Row {
        shows: "an answer set is taken again",
        text: ONE_OF_TWO,
        sets: &[0b1010, 0b1010],
        limit: 1,
        answer: Answer::Taken,
        upper: &[true, false, true],
        lower: &[true, false, true],
    },
    Row {
        shows: "a set in which the last but one rule fails is broken there",
        text: ONE_OF_TWO,
        sets: &[0b1010, 0b0010],
        limit: 1,
        answer: Answer::Rule(2),
        upper: &[true, false, true],
        lower: &[true, false, true],
    },
    Row {
        shows: "of two rules that fail the first is told",
        text: ONE_OF_TWO,
        sets: &[0b0000],
        limit: 1,
        answer: Answer::Rule(0),
        upper: &[true, true, true],
        lower: &[false, false, false],
    },
    Row {
        shows: "a set with an atom that must be absent is broken there",
        text: ONE_OF_TWO,
        sets: &[0b1011],
        limit: 1,
        answer: Answer::Compute(1),
        upper: &[true, true, true],
        lower: &[false, false, false],
    },
    Row {
        shows: "a model with a smaller one of its reduct is not taken, whatever was offered before",
        text: ONE_OF_TWO,
        sets: &[0b1010, 0b0010, 0b1110],
        limit: 1,
        answer: Answer::Smaller,
        upper: &[true, false, true],
        lower: &[true, false, true],
    },
    Row {
        shows: "a small budget is spent on an answer set, which is not taken",
        text: ALL_OR_NONE,
        sets: &[0b0111110],
        limit: 1,
        answer: Answer::Spent,
        upper: &[true, true],
        lower: &[false, false],
    },
    Row {
        shows: "with an ample budget it is taken",
        text: ALL_OR_NONE,
        sets: &[0b0111110],
        limit: 100,
        answer: Answer::Taken,
        upper: &[true, false],
        lower: &[true, false],
    },
];

/// Whether a set is a proper subset of another.
fn is_proper_part(part: &Set, whole: &Set) -> bool {
    let within = part
        .as_slice()
        .iter()
        .zip(whole.as_slice())
        .all(|(here, there)| !*here || *there);
    within && part.as_slice() != whole.as_slice() && part.len() == whole.len()
}

/// What is answered of a set with a limit on the budget.
fn answer_of(offered: &Offered, set: &Set, limit: u32) -> Answer {
    match offered {
        Offered::Taken => Answer::Taken,
        Offered::Broken(Broken::Rule(rule)) => Answer::Rule(*rule),
        Offered::Broken(Broken::Compute(atom)) => Answer::Compute(*atom),
        Offered::Smaller(part) if is_proper_part(part, set) => Answer::Smaller,
        Offered::Spent(units) if units.len() == limit as usize => Answer::Spent,
        Offered::Smaller(_) | Offered::Spent(_) | Offered::NoMemory => Answer::Wrong,
    }
}

/// Offers a set of a program's atoms by its bits, and what is answered.
fn offer(
    alloc: Global,
    client: &mut Client,
    program: &Program,
    bits: u32,
    limit: u32,
) -> Result<Answer, NoMemory>
    requires { client.old.program ≡ program.now }
    ensures { OnOk result (client.new.program ≡ program.now) }
{
    if program.atoms >= 32 || limit == 0 {
        return Ok(Answer::Wrong);
    }
    let set = set_of(alloc, program.atoms, bits)?;
    let mut budget = Budget::new(limit);
    let offered = client.offer(alloc, &set, &mut budget);
    Ok(answer_of(&offered, &set, limit))
}

/// What the last of a row's sets is answered.
fn last_answer(
    alloc: Global,
    client: &mut Client,
    program: &Program,
    row: &Row,
) -> Result<Answer, NoMemory>
    requires { client.old.program ≡ program.now }
{
    let mut answer = Answer::Wrong;
    for bits in row.sets {
        answer = offer(alloc, client, program, *bits, row.limit)?;
    }
    Ok(answer)
}

/// Whether a client reads what a row says.
fn reads(client: &mut Client, mode: Mode, row: &Row) -> bool {
    client.read();
    let lower = client.pair().lower.as_slice();
    let upper = client.pair().upper.as_slice();
    match mode {
        Mode::Cautious => lower.iter().all(|inside| !*inside) && upper == row.upper,
        Mode::Brave => lower == row.lower && upper.iter().all(|there| *there),
    }
}

/// Whether the offers of a row are answered as it says.
fn is_answered(alloc: Global, scene: Scene, row: &Row) -> Result<bool, NoMemory>
    requires { IsReady scene.mode scene.program scene.normal scene.board scene.seat
        scene.pair }
{
    let Scene {
        mode,
        program,
        normal,
        board,
        seat,
        ..
    } = scene;
    let mut client = Client::open(alloc, &program, &normal, &board, seat)?;
    let answer = last_answer(alloc, &mut client, &program, row)?;
    Ok(answer == row.answer && reads(&mut client, mode, row))
}

fn is_shown(alloc: Global, row: &Row, mode: Mode) -> Result<bool, NoMemory> {
    let Some(program) = program_of(alloc, row.text) else {
        return Ok(false);
    };
    match Scene::open(alloc, program, mode) {
        None => Ok(false),
        Some(scene) => is_answered(alloc, scene, row),
    }
}

#[test]
fn answer_sets_are_taken_and_other_sets_are_not(rt: HostRuntime) -> Result<(), Fail> {
    for row in &ROWS {
        assert!(rt; is_shown(rt.alloc(), row, Mode::Cautious)?, "{}", row.shows);
        assert!(rt;
            is_shown(rt.alloc(), row, Mode::Brave)?,
            "{} (brave)",
            row.shows
        );
    }
    Ok(())
}
