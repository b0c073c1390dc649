// The sums of all bodies, kept while assignments come and go. An assignment costs what its literal
// occurs, and so does taking it back.
ghost use Rattle.std.specs.Prelude.{◌≡◌, ◌<◌, ◌≤◌, ◌-◌, All, length, get_or, replicate, []};
ghost use Rattle.std.specs.Prelude.{true, IfOk};
ghost use Rattle.clause_store.specs.Clause.{negation};
ghost use Rattle.weight_propagator.specs.Sums.{AreMoved, AreMarked, IsMoved, HasTurned};
ghost use Rattle.weight_propagator.specs.Sums.{IsSizedFor};

use crate::look::Sums;
use crate::occurrences::{Occurrence, Occurrences};
use crate::row::Row;
use crate::waiting::Waiting;
use clause_store::Lit;
use item_list::NoMemory;
use std::alloc::Global;

/// Whether literals come on a side or leave it.
#[derive(Debug, Drop, Clone, Copy)]
pub enum Way {
    /// They come.
    Comes,
    /// They leave.
    Leaves,
}

impl Way {
    // The sum after a weight came or left.
    fn moved(self, sum: u64, weight: u64) -> u64
        ensures { IsMoved self weight sum result }
    {
        match self {
            Way::Comes => sum.saturating_add(weight),
            Way::Leaves => sum.saturating_sub(weight),
        }
    }
}

/// The sums of the bodies by their numbers, and which bodies have to be looked at.
#[derive(Debug, Drop)]
pub struct Tally {
    /// What the true literals weigh.
    pub reached: Vec<u64>,
    /// What the false ones weigh.
    pub missed: Vec<u64>,
    /// The bodies that may give a clause.
    pub waiting: Waiting,
}

impl Tally {
    /// Nothing is assigned, and each of so many bodies waits.
    pub fn open(alloc: Global, count: u32) -> Result<Tally, NoMemory>
        ensures reached { IfOk result (λ it. it.reached.items ≡ replicate count 0) }
        ensures missed { IfOk result (λ it. it.missed.items ≡ replicate count 0) }
        ensures same { IfOk result (λ it. length it.waiting.waits ≡ count) }
        ensures all { IfOk result (λ it. All (λ waits. waits ≡ true) it.waiting.waits) }
    {
        let reached = vec![in alloc; 0; count as usize]?;
        let missed = vec![in alloc; 0; count as usize]?;
        let waiting = all_waiting(alloc, count)?;
        Ok(Tally {
            reached,
            missed,
            waiting,
        })
    }

    /// The sums of a body.
    pub fn sums(&self, row: &Row, number: u32) -> Sums
        requires reached { number < length self.now.reached.items }
        requires missed { number < length self.now.missed.items }
        requires fits { get_or self.now.missed.items number 0 ≤ row.now.full }
        ensures yes { result.yes ≡ get_or self.now.reached.items number 0 }
        ensures possible { result.possible
            ≡ row.now.full - get_or self.now.missed.items number 0 }
    {
        Sums {
            yes: self.reached[number as usize],
            possible: row.full - self.missed[number as usize],
        }
    }

    /// Lets a literal become true, or unset again.
    pub fn turn(&mut self, occurrences: &Occurrences, lit: Lit, way: Way)
        requires sized { IsSizedFor (length self.old.waiting.waits) self.old }
        requires within { All (λ list. All
            (λ one. one.row < length self.old.waiting.waits) list) occurrences.now }
        ensures { HasTurned way (get_or occurrences.now lit.0 [])
            (get_or occurrences.now (negation lit).0 []) self.old self.new }
    {
        let yes = occurrences.at(lit);
        let no = occurrences.at(lit.negated());
        shift(yes, way, &mut self.reached, &mut self.waiting);
        shift(no, way, &mut self.missed, &mut self.waiting);
    }
}

// All of so many bodies wait.
fn all_waiting(alloc: Global, count: u32) -> Result<Waiting, NoMemory>
    ensures same { IfOk result (λ it. length it.waits ≡ count) }
    ensures all { IfOk result (λ it. All (λ waits. waits ≡ true) it.waits) }
{
    let mut waiting = Waiting::open(alloc, count as usize)?;
    for row in 0..count {
        waiting.mark(row);
    }
    Ok(waiting)
}

// Changes the sums of the bodies of occurrences, and lets these bodies wait.
fn shift(entries: &[Occurrence], way: Way, sums: &mut Vec<u64>, waiting: &mut Waiting)
    requires within { All (λ one. one.row < length sums.old.items) entries.now }
    requires same { length waiting.old.waits ≡ length sums.old.items }
    ensures moved { AreMoved way entries.now sums.old.items sums.new.items }
    ensures marked { AreMarked entries.now waiting.old.waits waiting.new.waits }
{
    for entry in entries {
        let row = entry.row as usize;
        sums[row] = way.moved(sums[row], entry.weight);
        waiting.mark(entry.row);
    }
}
