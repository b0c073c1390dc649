// What is still to be looked at, by numbers. Each number stands on the stack at most as often as it
// was marked anew, so that the room that `open` reserves always suffices.
ghost use Rattle.std.specs.Prelude.{◌≡◌, ◌≤◌, ◌<◌, ◌+◌, All, Some, None, set, replicate, length};
ghost use Rattle.std.specs.Prelude.{true, false, IfOk, IfSome, IfNone};

use item_list::NoMemory;
use std::alloc::Global;
use std::marker::Model;

/// Which bodies wait: a truth value for each number.
#[derive(Debug, Drop)]
pub struct Waiting {
    waits: Vec<bool>,
    stack: Vec<u32>,
}

impl Model for Waiting {
    ghost use Rattle.std.specs.Prelude.{◌-◌, length, slice_get, vec_capacity};
    ghost use Rattle.unfounded_sets.specs.Waits.{IsStack, Waited};

    ghost Value = { Waited };

    ghost view = { λ it. record {
      waits = it.waits.items;
      next = slice_get it.stack.items (length it.stack.items - 1);
      left = length it.stack.items;
    } };

    ghost invariant = { λ it. IsStack it.waits.items it.stack.items (vec_capacity it.stack) };
}

impl Waiting {
    /// None of so many bodies waits.
    pub fn open(alloc: Global, count: usize) -> Result<Waiting, NoMemory>
        ensures { IfOk result (λ it. it.waits ≡ replicate count false) }
    {
        let waits = vec![in alloc; false; count]?;
        let stack = Vec::with_capacity(alloc, count)?;
        Ok(Waiting { waits, stack })
    }

    /// How many bodies there are.
    pub fn count(&self) -> usize
        ensures { result ≡ length self.now.waits }
    {
        self.waits.len()
    }

    /// How many of them stand on the stack.
    pub fn len(&self) -> usize {
        self.stack.len()
    }

    /// The one at a place of the stack.
    pub fn at(&self, place: usize) -> Option<u32>
        ensures { IfSome result (λ row. row < length self.now.waits) }
    {
        self.stack.as_slice().get(place).copied()
    }

    /// Lets a body wait.
    pub fn mark(&mut self, row: u32)
        requires { row < length self.old.waits }
        ensures waits { self.new.waits ≡ set self.old.waits row true }
        ensures few { self.new.left ≤ length self.new.waits }
    {
        if !self.waits[row as usize] {
            self.waits[row as usize] = true;
            self.stack.push_reserved(row);
        }
    }

    /// The next body to look at. There is none only where none waits.
    pub fn next(&self) -> Option<u32>
        ensures is { result ≡ self.now.next }
        ensures some { IfSome result (λ row. row < length self.now.waits) }
        ensures none { IfNone result (All (λ waits. waits ≡ false) self.now.waits) }
    {
        self.stack.as_slice().last().copied()
    }

    /// Lets the next body wait no more.
    pub fn settle(&mut self, row: u32)
        requires { self.old.next ≡ Some row }
        ensures waits { self.new.waits ≡ set self.old.waits row false }
        ensures left { self.new.left + 1 ≡ self.old.left }
        ensures few { self.new.left ≤ length self.new.waits }
    {
        self.waits[row as usize] = false;
        let _ = self.stack.pop();
    }
}
