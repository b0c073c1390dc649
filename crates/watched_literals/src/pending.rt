// The clauses that each propagation looks at again. Each stands on the stack at most as often as it
// was marked anew, so that the room that is made with each clause always suffices.
ghost use Rattle.std.specs.Prelude.{◌≡◌, ◌<◌, ◌++◌, ◌∷◌, [], set, get_or, length, true, false};
ghost use Rattle.std.specs.Prelude.{OnOk, OnErr, Some, vec_capacity};
ghost use Rattle.watched_literals.specs.Pends.{HasAllWaiting, IsLeftOut};

use item_list::NoMemory;
use std::alloc::Global;
use std::marker::Model;

/// Which clauses are pending.
#[derive(Debug, Drop)]
pub struct Pending {
    waits: Vec<bool>,
    stack: Vec<u32>,
}

impl Model for Pending {
    ghost use Rattle.std.specs.Prelude.{vec_capacity};
    ghost use Rattle.watched_literals.specs.Pends.{IsStack, Waited};

    ghost Value = { Waited };

    ghost view = { λ it. record { waits = it.waits.items; stack = it.stack.items } };

    ghost invariant = { λ it. IsStack it.waits.items it.stack.items (vec_capacity it.stack) };
}

impl Pending {
    /// There is no clause.
    pub fn open(alloc: Global) -> Pending
        ensures { result ≡ record { waits = []; stack = [] } }
    {
        Pending {
            waits: Vec::new(alloc),
            stack: Vec::new(alloc),
        }
    }

    /// One clause more, which isn't pending. After want of memory nothing has changed.
    pub fn put(&mut self) -> Result<(), NoMemory>
        ensures ok { OnOk result
            (self.new ≡ record self.old { waits = self.old.waits ++ false ∷ [] }) }
        ensures err { OnErr result (self.new ≡ self.old) }
    {
        let more = self.waits.len() + 1 - self.stack.len();
        self.stack.reserve(more)?;
        self.waits.push(false)?;
        Ok(())
    }

    /// Makes a clause pending.
    pub fn mark(&mut self, row: u32)
        requires { row < length self.old.waits }
        ensures { self.new.waits ≡ set self.old.waits row true }
    {
        if !self.waits[row as usize] {
            self.waits[row as usize] = true;
            self.stack.push_reserved(row);
        }
    }

    /// The pending clauses.
    pub fn rows(&self) -> &[u32]
        ensures rows { result.now ≡ self.now.stack }
        ensures all { HasAllWaiting self.now }
    {
        self.stack.as_slice()
    }

    /// The clause at that place of the stack is pending no more. The last one takes its place.
    pub fn settle(&mut self, at: usize)
        requires { at < length self.old.stack }
        ensures waits { self.new.waits ≡ set self.old.waits (get_or self.old.stack at 0) false }
        ensures stack { IsLeftOut at self.old.stack self.new.stack }
    {
        let row = self.stack[at];
        self.waits[row as usize] = false;
        take_out(&mut self.stack, at);
    }
}

/// Takes the item at that place out. The last one takes its place.
fn take_out(stack: &mut Vec<u32>, at: usize)
    requires { at < length stack.old.items }
    ensures left { IsLeftOut at stack.old.items stack.new.items }
    ensures room { vec_capacity stack.new ≡ vec_capacity stack.old }
{
    if let Some(last) = stack.pop() {
        if at < stack.len() {
            stack[at] = last;
        }
    }
}
