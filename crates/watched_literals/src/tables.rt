// What is kept for each clause beside its place in the store: its nodes, the place where the last
// look at its literals ended, and whether it is pending.
ghost use Rattle.std.specs.Prelude.{◌≡◌, ◌≢◌, ◌≤◌, ◌<◌, ◌+◌, ◌*◌, ◌/◌, length, OnOk, OnErr};
ghost use Rattle.watched_literals.specs.Chains.{none};
ghost use Rattle.watched_literals.specs.Watching.{IsMoved};
ghost use Rattle.watched_literals.specs.Laying.{IsWritten, IsWrittenBy};
ghost use Rattle.watched_literals.specs.Rooms.{HasRoom, IsRoomier, IsSame, IsPut, IsWaitPut};

use crate::chains::{Chains, NONE, Node};
use crate::choosing::Choice;
use crate::left::Left;
use crate::pending::Pending;
use clause_store::Lit;
use item_list::NoMemory;

/// The place that says that all literals of a clause but the two watched ones are false for good.
pub const BINARY: u32 = 4294967295;

/// The tables of the attached clauses.
#[derive(Debug, Drop)]
pub struct Tables {
    pub chains: Chains,
    pub saved: Vec<u32>,
    pub pending: Pending,
}

impl Tables {
    /// Makes room for a clause more, which isn't pending yet.
    pub fn make_room(&mut self) -> Result<(), NoMemory>
        ensures room { OnOk result (HasRoom self.new) }
        ensures ok { OnOk result (IsRoomier self.old self.new) }
        ensures err { OnErr result (IsSame self.old self.new) }
    {
        self.chains.nodes.reserve(2)?;
        self.saved.reserve(1)?;
        self.pending.put()
    }

    /// Puts a clause last, for which room was made.
    pub fn put(&mut self, clause: &[Lit], choice: Choice, next: usize)
        requires room { HasRoom self.old }
        requires waits { length self.old.pending.waits ≡ length self.old.saved.items + 1 }
        requires fits { length self.old.saved.items ≤ none }
        requires one { choice.one.0 < length self.old.chains.heads.items }
        requires two { choice.two.0 < length self.old.chains.heads.items }
        requires few { length self.old.chains.nodes.items + 2 ≤ none }
        ensures { IsPut clause.now choice next self.old self.new }
    {
        let row = self.saved.len() as u32;
        self.chains.put_two(choice.one, choice.two);
        self.saved.push_reserved(first_place(clause));
        put_wait(&mut self.pending, clause, next, row);
    }

    /// Moves a node that comes after `last` from the chain of a literal into that of another, and
    /// keeps the place where the look at its clause ended.
    pub fn move_node(&mut self, lit: Lit, to: Lit, last: u32, at: u32, next: u32, place: u32)
        requires last { last ≢ none → last < length self.old.chains.nodes.items }
        requires at { at < length self.old.chains.nodes.items }
        requires row { at / 2 < length self.old.saved.items }
        requires lit { lit.0 < length self.old.chains.heads.items }
        requires to { to.0 < length self.old.chains.heads.items }
        requires place { place ≢ none }
        ensures { IsMoved lit to last at next self.old self.new }
    {
        self.saved[at as usize / 2] = place;
        self.chains.unlink(lit, last, next);
        self.chains.link(at, to);
    }

    /// Watches a clause at what is left of it. Its nodes are in no chain then. Where fewer than two
    /// literals are left, it becomes pending.
    pub fn seat(&mut self, row: usize, left: Left)
        requires nodes { 2 * row + 1 < length self.old.chains.nodes.items }
        requires saved { row < length self.old.saved.items }
        requires waits { row < length self.old.pending.waits }
        requires fits { row < none }
        ensures { IsWrittenBy row left self.old self.new }
    {
        match left {
            Left::Open(one, two) => self.write(row, one, two, 0),
            Left::Pair(one, two) => self.write(row, one, two, BINARY),
            Left::True => self.write(row, Lit(0), Lit(0), 0),
            Left::Few => {
                self.write(row, Lit(0), Lit(0), 0);
                self.pending.mark(row as u32);
            }
        }
    }

    /// Writes at which literals a clause is watched, and where the next look at it begins.
    fn write(&mut self, row: usize, one: Lit, two: Lit, place: u32)
        requires nodes { 2 * row + 1 < length self.old.chains.nodes.items }
        requires saved { row < length self.old.saved.items }
        ensures written { IsWritten row one two place self.old self.new }
        ensures pending { self.new.pending ≡ self.old.pending }
    {
        self.chains.nodes[2 * row] = Node {
            lit: one,
            next: NONE,
        };
        self.chains.nodes[2 * row + 1] = Node {
            lit: two,
            next: NONE,
        };
        self.saved[row] = place;
    }
}

/// Where the first look at a clause begins.
fn first_place(clause: &[Lit]) -> u32
    ensures { result ≡ none → length clause.now ≡ 2 }
{
    if clause.len() == 2 { BINARY } else { 0 }
}

/// Makes a clause pending if it is short or chains were walked.
fn put_wait(pending: &mut Pending, clause: &[Lit], next: usize, row: u32)
    requires within { row < length pending.old.waits }
    ensures { IsWaitPut clause.now next row pending.old.waits pending.new.waits }
{
    if clause.len() < 2 || next > 0 {
        pending.mark(row);
    }
}
