// Two ways of reading, side by side on one board: into a pair, and again with what is kept of the
// read before. A client reports candidate after candidate in between.
ghost use Rattle.std.specs.Prelude.{◌≡◌, IfOk, IfSome, OnOk, length};
ghost use Rattle.ground_program.specs.Bounds.{IsPairOver};
ghost use Rattle.ground_program.specs.Meaning.{IsSetOver};
ghost use Rattle.ground_program.specs.Program.{IsProgram};
ghost use Rattle.bounds_board.specs.Board.{IsSeatOf, normal_of};
ghost use Rattle.trial_board.specs.Ready.{IsReady};

use crate::trials::scene::Scene;
use bounds_board::{Board, BoardSeat, LastRead};
use clause_store::Budget;
use client_reads::{Client, Offered};
use ground_program::{
    Atoms, Body, Heads, Kind, Mode, Name, Named, Names, Pair, Program, Rule, Rules, Set, is_valid,
};
use item_list::NoMemory;
use std::alloc::Global;
use std::test::Fail;

// Two words of candidates and two more.
const ATOMS: u32 = 130;

/// A seat that reads into a pair, and one that reads again.
#[derive(Drop)]
struct Readers {
    seat: BoardSeat,
    pair: Pair,
    again: BoardSeat,
    last: LastRead,
}

/// A program of one choice rule, of which any set of its atoms is an answer set. Each has a name.
fn any_set(alloc: Global, atoms: u32) -> Result<Option<Program>, NoMemory>
    ensures { IfOk result (λ it. IfSome it IsProgram) }
{
    let mut heads = Heads::open();
    let mut names = Names::open();
    for at in 0..atoms {
        let atom = at.saturating_add(1);
        heads.push(alloc, atom)?;
        let name = Name::from_slice(alloc, b"a")?;
        names.push(alloc, Named { atom, name })?;
    }
    let mut rules = Rules::open();
    let choice = Rule {
        kind: Kind::Choice,
        bound: 0,
        heads,
        body: Body::open(),
    };
    rules.push(alloc, choice)?;
    let program = Program {
        atoms,
        rules,
        names,
        must: Atoms::open(),
        must_not: Atoms::open(),
        models: 1,
    };
    if is_valid(&program) {
        Ok(Some(program))
    } else {
        Ok(None)
    }
}

/// The set that shows just one atom: in brave mode that one alone, in cautious mode all others.
fn showing(alloc: Global, mode: Mode, atoms: u32, shown: u32) -> Result<Set, NoMemory>
    ensures { IfOk result (IsSetOver atoms) }
{
    let mut set = Set::open();
    set.push(alloc, false)?;
    for at in 0..atoms {
        set.push(
            alloc,
            (at.saturating_add(1) == shown) == (mode == Mode::Brave),
        )?;
    }
    Ok(set)
}

/// Whether the set that shows just one atom is taken.
fn is_taken(
    alloc: Global,
    client: &mut Client,
    program: &Program,
    mode: Mode,
    shown: u32,
) -> Result<bool, NoMemory>
    requires { client.old.program ≡ program.now }
    ensures { OnOk result (client.new.program ≡ program.now) }
{
    let set = showing(alloc, mode, program.atoms, shown)?;
    let mut budget = Budget::new(1000);
    let offered = client.offer(alloc, &set, &mut budget);
    Ok(matches!(offered, Offered::Taken))
}

impl Readers {
    /// Whether both ways of reading give the same pair.
    fn agree(&mut self, board: &Board) -> bool
        requires seat { IsSeatOf board.now self.old.seat }
        requires over { IsPairOver (length (normal_of board.now).names) self.old.pair }
        requires again { IsSeatOf board.now self.old.again }
        requires last { IsPairOver (length (normal_of board.now).names) self.old.last }
        ensures seat { IsSeatOf board.now self.new.seat }
        ensures over { IsPairOver (length (normal_of board.now).names) self.new.pair }
        ensures again { IsSeatOf board.now self.new.again }
        ensures last { IsPairOver (length (normal_of board.now).names) self.new.last }
    {
        board.read_into(&mut self.seat, &mut self.pair);
        board.read_again(&mut self.again, &mut self.last);
        are_same(&self.pair, self.last.pair())
    }
}

fn are_same(one: &Pair, other: &Pair) -> bool {
    one.lower.as_slice() == other.lower.as_slice() && one.upper.as_slice() == other.upper.as_slice()
}

/// Whether a pair has all candidates as inside, or all as outside.
fn has_all(mode: Mode, pair: &Pair) -> bool {
    match mode {
        Mode::Brave => pair.lower.as_slice().iter().all(|inside| *inside),
        Mode::Cautious => pair.upper.as_slice().iter().all(|there| !*there),
    }
}

/// Whether the readers agree after each report, and have what it shows: one atom after another is
/// shown, in an order that goes from word to word.
fn stay_same(
    alloc: Global,
    board: &Board,
    readers: &mut Readers,
    client: &mut Client,
    program: &Program,
    mode: Mode,
) -> Result<bool, NoMemory>
    requires seat { IsSeatOf board.now readers.old.seat }
    requires over { IsPairOver (length (normal_of board.now).names) readers.old.pair }
    requires again { IsSeatOf board.now readers.old.again }
    requires last { IsPairOver (length (normal_of board.now).names) readers.old.last }
    requires client { client.old.program ≡ program.now }
{
    for turn in 0..ATOMS {
        let taken = is_taken(alloc, client, program, mode, turn * 47 % ATOMS + 1)?;
        let before = has_all(mode, &readers.pair);
        if !taken || before || !readers.agree(board) {
            return Ok(false);
        }
    }
    Ok(has_all(mode, &readers.pair))
}

/// Whether readers of a scene's board stay the same.
fn are_same_in(alloc: Global, scene: Scene) -> Result<bool, NoMemory>
    requires { IsReady scene.mode scene.program scene.normal scene.board scene.seat scene.pair }
{
    let Scene {
        mode,
        program,
        normal,
        board,
        mut seat,
        pair,
    } = scene;
    let last = LastRead::open(alloc, board.candidates())?;
    let noted = board.note(&mut seat);
    let again = board.note(&mut seat);
    let mut readers = Readers {
        seat,
        pair,
        again,
        last,
    };
    let mut client = Client::open(alloc, &program, &normal, &board, noted)?;
    stay_same(alloc, &board, &mut readers, &mut client, &program, mode)
}

fn is_shown(alloc: Global, mode: Mode) -> Result<bool, NoMemory> {
    let Some(program) = any_set(alloc, ATOMS)? else {
        return Ok(false);
    };
    match Scene::open(alloc, program, mode) {
        None => Ok(false),
        Some(scene) => are_same_in(alloc, scene),
    }
}

#[test]
fn a_read_again_gives_what_a_read_gives(rt: HostRuntime) -> Result<(), Fail> {
    assert!(rt; is_shown(rt.alloc(), Mode::Cautious)?);
    assert!(rt; is_shown(rt.alloc(), Mode::Brave)?);
    Ok(())
}
