// Which candidates are settled, with their places and counts.
ghost use Rattle.std.specs.Prelude.{◌≡◌, ◌≤◌, ◌<◌, ◌-◌, ◌^◌, ℕ, true, false, length, replicate};
ghost use Rattle.std.specs.Prelude.{slice_set, slice_index_or, count_by, IfOk, All, fold, filter};
ghost use Rattle.std.specs.List.{range_with_len};
ghost use Rattle.master_record.specs.Course.{is_open, is_open_at, is_left_at, IsLeast};
ghost use Rattle.master_record.specs.Course.{IsLineOver, course_after};

use ground_program::{Bits, Pair};
use item_list::{List, NoMemory};
use report::Line;
use std::alloc::Global;
use std::marker::Model;

/// The pair that lines make, and which candidates are left to be tested by themselves.
#[derive(Drop)]
pub(crate) struct Candidates {
    pair: Pair,
    left: Bits,
    lower_size: u32,
    upper_size: u32,
    least_open: u32,
    least_left: u32,
}

impl Model for Candidates {
    ghost use Rattle.master_record.specs.Course.{Course, IsCourse};

    ghost Value = { Course };

    ghost view = { λ it. record { pair = it.pair; left = it.left } };

    ghost invariant = { λ it.
        IsCourse it.pair it.left it.lower_size it.upper_size it.least_open it.least_left };
}

impl Candidates {
    /// So many candidates, all of them open and left.
    pub(crate) fn open(alloc: Global, count: u32) -> Result<Candidates, NoMemory>
        requires { count < 2 ^ 31 }
        ensures { IfOk result (λ it. it ≡ record {
          pair = record { lower = replicate count false; upper = replicate count true };
          left = replicate count true;
        }) }
    {
        let pair = Pair::open(alloc, count)?;
        let left = all_left(alloc, count)?;
        Ok(Candidates {
            pair,
            left,
            lower_size: 0,
            upper_size: count,
            least_open: 0,
            least_left: 0,
        })
    }

    /// The number of candidates.
    pub(crate) fn count(&self) -> u32
        ensures count { result ≡ length self.now.left }
        ensures lower { result ≡ length self.now.pair.lower }
        ensures upper { result ≡ length self.now.pair.upper }
        ensures few { result < 2 ^ 31 }
    {
        self.left.len() as u32
    }

    /// The pair.
    pub(crate) fn pair(&self) -> &Pair
        ensures { result.now ≡ self.now.pair }
    {
        &self.pair
    }

    /// The sizes of the two bounds.
    pub(crate) fn sizes(&self) -> (u32, u32)
        ensures lower { result.0 ≡ count_by (λ bit. bit) self.now.pair.lower }
        ensures upper { result.1 ≡ count_by (λ bit. bit) self.now.pair.upper }
    {
        (self.lower_size, self.upper_size)
    }

    /// Whether the candidate isn't settled.
    pub(crate) fn is_open(&self, cand: u32) -> bool
        requires { 1 ≤ cand }
        ensures { result ≡ is_open self.now.pair cand }
    {
        let place = cand as usize - 1;
        !has(&self.pair.lower, place) && has(&self.pair.upper, place)
    }

    /// Whether the candidate is open and has no spent test.
    pub(crate) fn is_left(&self, cand: u32) -> bool
        requires { 1 ≤ cand }
        ensures { result ≡ is_left_at self.now.left (cand - 1) }
    {
        has(&self.left, cand as usize - 1)
    }

    /// The place, from 0, of the least open candidate, or the number of candidates.
    pub(crate) fn least_open(&self) -> u32
        ensures { IsLeast (is_open_at self.now.pair) (length self.now.left) result }
    {
        self.least_open
    }

    /// The place of the least candidate that is left, or the number of candidates.
    pub(crate) fn least_left(&self) -> u32
        ensures { IsLeast (is_left_at self.now.left) (length self.now.left) result }
    {
        self.least_left
    }

    /// The own test of the candidate is spent.
    pub(crate) fn spend(&mut self, cand: u32)
        requires first { 1 ≤ cand }
        requires last { cand ≤ length self.old.left }
        ensures { self.new ≡ record {
          pair = self.old.pair;
          left = slice_set self.old.left (cand - 1) false;
        } }
    {
        self.left.set(cand as usize - 1, false);
        self.least_left = next_left(&self.left, self.least_left);
    }

    /// What these lines settle is settled.
    pub(crate) fn settle(&mut self, lines: &[Line])
        requires { All (IsLineOver (length self.old.left)) lines.now }
        ensures { self.new ≡ fold course_after self.old lines.now }
    {
        for line in lines {
            self.settle_by(line);
        }
    }

    /// What this line settles is settled.
    fn settle_by(&mut self, line: &Line)
        requires { IsLineOver (length self.old.left) line.now }
        ensures { self.new ≡ course_after self.old line.now }
    {
        match line {
            Line::SettledIn { cand, by: _ } => self.put_in(*cand as usize - 1),
            Line::SettledOut { cand, by: _ } => self.put_out(*cand as usize - 1),
            _ => {}
        }
    }

    /// The candidate at a place, from 0, is a consequence.
    fn put_in(&mut self, place: usize)
        requires { place < length self.old.left }
        ensures { self.new ≡ record {
          pair = record {
            lower = slice_set self.old.pair.lower place true;
            upper = self.old.pair.upper;
          };
          left = slice_set self.old.left place false;
        } }
    {
        let count = self.left.len() as u32;
        self.lower_size = raise(&mut self.pair.lower, self.lower_size, place);
        self.left.set(place, false);
        self.least_open = next_open(&self.pair, self.least_open, count);
        self.least_left = next_left(&self.left, self.least_left);
    }

    /// The candidate at a place, from 0, is no consequence.
    fn put_out(&mut self, place: usize)
        requires { place < length self.old.left }
        ensures { self.new ≡ record {
          pair = record {
            lower = self.old.pair.lower;
            upper = slice_set self.old.pair.upper place false;
          };
          left = slice_set self.old.left place false;
        } }
    {
        let count = self.left.len() as u32;
        self.upper_size = clear(&mut self.pair.upper, self.upper_size, place);
        self.left.set(place, false);
        self.least_open = next_open(&self.pair, self.least_open, count);
        self.least_left = next_left(&self.left, self.least_left);
    }
}

/// The open candidates, ascending.
pub(crate) fn open_list(alloc: Global, candidates: &Candidates) -> Result<Vec<u32>, NoMemory>
    ensures { IfOk result (λ cands. cands.items ≡ filter (is_open candidates.now.pair)
        (range_with_len 1 (length candidates.now.left))) }
{
    let mut cands = Vec::new(alloc);
    for place in candidates.least_open()..candidates.count() {
        if candidates.is_open(place + 1) {
            cands.push(place + 1)?;
        }
    }
    Ok(cands)
}

/// Makes a place true where so many are, and gives how many are true then.
fn raise(bits: &mut Bits, size: u32, place: usize) -> u32
    requires few { length bits.old < 2 ^ 31 }
    requires size { size ≡ count_by (λ bit. bit) bits.old }
    requires within { place < length bits.old }
    ensures bits { bits.new ≡ slice_set bits.old place true }
    ensures size { result ≡ count_by (λ bit. bit) bits.new }
{
    let had = has(bits, place);
    bits.set(place, true);
    if had { size } else { size + 1 }
}

/// Makes a place false where so many are true, and gives how many are true then.
fn clear(bits: &mut Bits, size: u32, place: usize) -> u32
    requires size { size ≡ count_by (λ bit. bit) bits.old }
    requires within { place < length bits.old }
    ensures bits { bits.new ≡ slice_set bits.old place false }
    ensures size { result ≡ count_by (λ bit. bit) bits.new }
{
    let had = has(bits, place);
    bits.set(place, false);
    if had { size - 1 } else { size }
}

/// Whether a place is true. A place past the end isn't.
pub(crate) fn has(bits: &Bits, place: usize) -> bool
    ensures { result ≡ slice_index_or bits.now place false }
{
    bits.as_slice().get(place).copied().unwrap_or(false)
}

/// So many places that are true.
fn all_left(alloc: Global, count: u32) -> Result<Bits, NoMemory>
    ensures { IfOk result (λ bits. bits ≡ replicate count true) }
{
    let items = vec![in alloc; true; count as usize]?;
    Ok(List::from_vec(items))
}

/// The least place of an open candidate, from a place on before which there is none.
fn next_open(pair: &Pair, from: u32, count: u32) -> u32
    requires lower { length pair.now.lower ≡ count }
    requires upper { length pair.now.upper ≡ count }
    requires within { from ≤ count }
    requires before { (k : ℕ) → k < from → is_open_at pair.now k ≡ false }
    ensures { IsLeast (is_open_at pair.now) count result }
{
    for place in from..count {
        if !has(&pair.lower, place as usize) && has(&pair.upper, place as usize) {
            return place;
        }
    }
    count
}

/// The least place that is true, from a place on before which there is none.
fn next_left(left: &Bits, from: u32) -> u32
    requires few { length left.now < 2 ^ 31 }
    requires within { from ≤ length left.now }
    requires before { (k : ℕ) → k < from → is_left_at left.now k ≡ false }
    ensures { IsLeast (is_left_at left.now) (length left.now) result }
{
    let count = left.len() as u32;
    for place in from..count {
        if has(left, place as usize) {
            return place;
        }
    }
    count
}
