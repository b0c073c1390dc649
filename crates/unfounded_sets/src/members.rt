// A set of numbers that knows those that it has, so that emptying it costs no more than they are.
// The room that `open` reserves always suffices.
ghost use Rattle.std.specs.Prelude.{◌≡◌, ◌<◌, [], false, replicate, length, IfOk};
ghost use Rattle.std.specs.Bool.{OnTrue, OnFalse};
ghost use Rattle.ground_program.specs.Meaning.{has};
ghost use Rattle.unfounded_sets.specs.Members.{IsAdded, IsListed};

use item_list::NoMemory;
use std::alloc::Global;
use std::marker::Model;

/// A set of numbers below a fixed one.
#[derive(Debug, Drop)]
pub struct Members {
    marks: Vec<bool>,
    list: Vec<u32>,
}

impl Model for Members {
    ghost use Rattle.std.specs.Prelude.{vec_capacity};
    ghost use Rattle.unfounded_sets.specs.Members.{AreListed, Marked};

    ghost Value = { Marked };

    ghost view = { λ it. record { marks = it.marks.items; list = it.list.items } };

    ghost invariant = { λ it. AreListed it.marks.items it.list.items (vec_capacity it.list) };
}

impl Members {
    /// None of so many numbers.
    pub fn open(alloc: Global, count: usize) -> Result<Members, NoMemory>
        ensures { IfOk result (λ it. it ≡ record { marks = replicate count false; list = [] }) }
    {
        let marks = vec![in alloc; false; count]?;
        let list = Vec::with_capacity(alloc, count)?;
        Ok(Members { marks, list })
    }

    /// Whether it has a number.
    pub fn has(&self, number: u32) -> bool
        ensures { result ≡ has self.now.marks number }
    {
        self.marks.get(number as usize).copied().unwrap_or(false)
    }

    /// For each number whether it has it.
    pub fn marks(&self) -> &[bool]
        ensures { result.now ≡ self.now.marks }
    {
        self.marks.as_slice()
    }

    /// The numbers that it has, in the order in which they were added.
    pub fn list(&self) -> &[u32]
        ensures is { result.now ≡ self.now.list }
        ensures listed { IsListed self.now }
    {
        self.list.as_slice()
    }

    /// Adds a number.
    pub fn add(&mut self, number: u32)
        requires { number < length self.old.marks }
        ensures { IsAdded number self.old self.new }
    {
        if !self.marks[number as usize] {
            self.marks[number as usize] = true;
            self.list.push_reserved(number);
        }
    }

    /// Takes all numbers out.
    pub fn clear(&mut self)
        ensures list { self.new.list ≡ [] }
        ensures size { length self.new.marks ≡ length self.old.marks }
    {
        'numbers: while self.drop_last() {}
    }

    // Takes the last number out. Whether there was one.
    fn drop_last(&mut self) -> bool
        ensures nearer { OnTrue result (length self.new.list < length self.old.list) }
        ensures none { OnFalse result (self.new.list ≡ []) }
        ensures size { length self.new.marks ≡ length self.old.marks }
    {
        match self.list.pop() {
            None => false,
            Some(number) => {
                self.marks[number as usize] = false;
                true
            }
        }
    }
}
