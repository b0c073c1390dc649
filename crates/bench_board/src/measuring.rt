// Reads of a board, alone and beside reports of a second thread, and reports.
ghost use Rattle.std.specs.Prelude.{◌≡◌};
ghost use Rattle.ground_program.specs.Program.{IsProgram};
ghost use Rattle.normal_program.specs.Limit.{IsNormal};
ghost use Rattle.normal_program.specs.Normal.{IsAnswerSetN, IsNormalFormOf};
ghost use Rattle.bounds_board.specs.Board.{IsSeatOf, normal_of, mode_of};
ghost use Rattle.bench_board.specs.Blank.{IsBlank, IsEmpty};

use crate::figures::{Calls, Figures, Task};
use bounds_board::{Board, BoardSeat};
use client_reads::Client;
use ground_program::{Mode, Pair, Program, Set};
use normal_program::Normal;
use std::alloc::Global;
use std::rt::Clock;
use std::sync::atomic::{AtomicBool, Ordering};
use std::thread::{Threads, join_mut};
use std::time::Instant;

/// What a task measures on a board of a normal form. None is want of memory or of a clock.
#[tactic(auto, using(crate::proofs::BlankLemmas::blank_on))]
pub fn measure<R: Threads + Clock>(
    rt: &R,
    alloc: Global,
    program: &Program,
    normal: &Normal,
    set: &Set,
    task: &Task,
) -> Option<Figures>
    requires valid { IsProgram program.now }
    requires normal { IsNormal normal.now }
    requires form { IsNormalFormOf normal.now program.now }
    requires answer { IsAnswerSetN normal.now set.now }
    requires empty { IsEmpty set.now }
{
    let Ok((board, mut seat)) = Board::open(alloc, normal, Mode::Cautious) else {
        return None;
    };
    let noted = board.note(&mut seat);
    let Ok(mut client) = Client::open(alloc, program, normal, &board, noted) else {
        return None;
    };
    let alone = reads_alone(rt, &mut client, task.reads)?;
    let before = possible(&client);
    let (beside, against) = reads_beside(rt, &board, &mut client, &mut seat, set, task.reads)?;
    let reports = reports_alone(rt, &board, &mut seat, set, task.rounds)?;
    let sets = set_reports_alone(rt, &board, &mut seat, set, task.rounds)?;
    let whole = whole_reads_alone(rt, alloc, &board, &mut seat, task.rounds)?;
    client.learn(seat);
    client.read();
    Some(Figures {
        candidates: board.candidates(),
        before,
        after: possible(&client),
        alone,
        beside,
        against,
        reports,
        sets,
        whole,
    })
}

/// How many candidates the upper bound of a client's last read has.
fn possible(client: &Client) -> usize {
    client
        .pair()
        .upper
        .as_slice()
        .iter()
        .filter(|there| **there)
        .count()
}

/// So many reads while nobody reports.
fn reads_alone<R: Clock>(rt: &R, client: &mut Client, reads: u32) -> Option<Calls>
    ensures { client.new.board ≡ client.old.board }
{
    let start = Instant::now(rt).ok()?;
    read_often(client, reads);
    calls_since(rt, start, u64::from(reads))
}

/// Reads the board so many times.
fn read_often(client: &mut Client, reads: u32)
    ensures { client.new.board ≡ client.old.board }
{
    for _ in 0..reads {
        client.read();
    }
}

/// So many reads while a second thread reports, and the reports of that thread.
fn reads_beside<R: Threads + Clock>(
    rt: &R,
    board: &Board,
    client: &mut Client,
    seat: &mut BoardSeat,
    set: &Set,
    reads: u32,
) -> Option<(Calls, Calls)>
    requires seat { IsSeatOf board.now seat.old }
    requires blank { IsBlank (normal_of board.now) (mode_of board.now) set.now }
    ensures client { client.new.board ≡ client.old.board }
    ensures seat { IsSeatOf board.now seat.new }
{
    let done = AtomicBool::new(false);
    let start = Instant::now(rt).ok()?;
    let (_, count) = join_mut(
        rt,
        &mut || read_until_done(client, reads, &done),
        &mut || report_until_done(board, seat, set, &done),
    );
    let took = start.elapsed(rt).ok()?;
    let beside = Calls {
        count: u64::from(reads),
        took,
    };
    Some((beside, Calls { count, took }))
}

/// Reads the board so many times, and then says that it is done.
fn read_until_done(client: &mut Client, reads: u32, done: &AtomicBool)
    ensures { client.new.board ≡ client.old.board }
{
    read_often(client, reads);
    done.store(true, Ordering::SeqCst);
}

/// Reports each candidate, round after round, until the other thread is done. How many reports
/// there were.
fn report_until_done(board: &Board, seat: &mut BoardSeat, set: &Set, done: &AtomicBool) -> u64
    requires seat { IsSeatOf board.now seat.old }
    requires blank { IsBlank (normal_of board.now) (mode_of board.now) set.now }
    ensures { IsSeatOf board.now seat.new }
{
    let mut reports = 0u64;
    for _ in 0..u32::MAX {
        report_each(board, seat, set);
        reports = reports.saturating_add(u64::from(board.candidates()));
        if done.load(Ordering::SeqCst) {
            break;
        }
    }
    reports
}

/// Reports of each candidate, so many rounds, with no second thread.
fn reports_alone<R: Clock>(
    rt: &R,
    board: &Board,
    seat: &mut BoardSeat,
    set: &Set,
    rounds: u32,
) -> Option<Calls>
    requires seat { IsSeatOf board.now seat.old }
    requires blank { IsBlank (normal_of board.now) (mode_of board.now) set.now }
    ensures { IsSeatOf board.now seat.new }
{
    let start = Instant::now(rt).ok()?;
    for _ in 0..rounds {
        report_each(board, seat, set);
    }
    let count = u64::from(rounds) * u64::from(board.candidates());
    calls_since(rt, start, count)
}

/// So many reports of a set, with no second thread.
fn set_reports_alone<R: Clock>(
    rt: &R,
    board: &Board,
    seat: &mut BoardSeat,
    set: &Set,
    rounds: u32,
) -> Option<Calls>
    requires seat { IsSeatOf board.now seat.old }
    requires blank { IsBlank (normal_of board.now) (mode_of board.now) set.now }
    ensures { IsSeatOf board.now seat.new }
{
    let start = Instant::now(rt).ok()?;
    for _ in 0..rounds {
        board.report_set(seat, set);
    }
    calls_since(rt, start, u64::from(rounds))
}

/// So many reads by a seat that keeps nothing from read to read, with no second thread.
fn whole_reads_alone<R: Clock>(
    rt: &R,
    alloc: Global,
    board: &Board,
    seat: &mut BoardSeat,
    reads: u32,
) -> Option<Calls>
    requires { IsSeatOf board.now seat.old }
    ensures { IsSeatOf board.now seat.new }
{
    let Ok(mut pair) = Pair::open(alloc, board.candidates()) else {
        return None;
    };
    let start = Instant::now(rt).ok()?;
    for _ in 0..reads {
        board.read_into(seat, &mut pair);
    }
    calls_since(rt, start, u64::from(reads))
}

/// Reports of each candidate that it isn't a consequence: an answer set has no atom.
fn report_each(board: &Board, seat: &mut BoardSeat, set: &Set)
    requires seat { IsSeatOf board.now seat.old }
    requires blank { IsBlank (normal_of board.now) (mode_of board.now) set.now }
    ensures { IsSeatOf board.now seat.new }
{
    let _ = set;
    for at in 0..board.candidates() {
        board.report_out(seat, at + 1);
    }
}

/// So many calls since a moment.
fn calls_since<R: Clock>(rt: &R, start: Instant, count: u64) -> Option<Calls> {
    let took = start.elapsed(rt).ok()?;
    Some(Calls { count, took })
}
