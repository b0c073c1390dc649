// How far a walk along the chain of a literal has come.
ghost use Rattle.std.specs.Prelude.{◌≡◌};

use clause_store::Lit;

/// The assignment by its place, the literal that it made false, its level, the last node before the
/// present one that stayed in the chain, and the present node.
#[derive(Debug, Drop, Clone, Copy)]
pub struct Cursor {
    pub place: usize,
    pub lit: Lit,
    pub level: u32,
    pub last: u32,
    pub at: u32,
}

impl Cursor {
    /// Goes on from a node that stayed.
    pub fn stay(&mut self, next: u32)
        ensures { self.new ≡ record self.old { last = self.old.at; at = next } }
    {
        self.last = self.at;
        self.at = next;
    }

    /// Goes on from a node that left the chain.
    pub fn leave(&mut self, next: u32)
        ensures { self.new ≡ record self.old { at = next } }
    {
        self.at = next;
    }
}
