// The chains of nodes, one for each literal. A clause has two nodes, which stand side by side.
ghost use Rattle.std.specs.Prelude.{◌≡◌, ◌≢◌, ◌≤◌, ◌<◌, ◌+◌, ◌++◌, ◌∷◌, [], length, get_or, set};
ghost use Rattle.std.specs.Prelude.{vec_capacity, vec_len};
ghost use Rattle.watched_literals.specs.Chains.{none, IsUnlinked};
ghost use Rattle.watched_literals.specs.Laying.{AreCoded, AreEmpty, AreLinkedAnew};
ghost use Rattle.watched_literals.specs.Rooms.{AreNodesPut};
ghost use Rattle.watched_literals.specs.Watching.{partner_of};

use clause_store::Lit;

/// The number that no node has: it ends a chain.
pub const NONE: u32 = 4294967295;

/// A clause is watched at a literal, whose chain goes on with another node.
#[derive(Debug, Drop, Clone, Copy)]
pub struct Node {
    pub lit: Lit,
    pub next: u32,
}

/// The nodes, and for each literal the first one of its chain.
#[derive(Debug, Drop)]
pub struct Chains {
    pub nodes: Vec<Node>,
    pub heads: Vec<u32>,
}

impl Chains {
    /// Puts a node last and first into the chain of its literal. There is room for it.
    pub fn put(&mut self, lit: Lit)
        requires room { length self.old.nodes.items < none }
        requires reserved { vec_len self.old.nodes < vec_capacity self.old.nodes }
        requires head { lit.0 < length self.old.heads.items }
        ensures nodes { self.new.nodes.items ≡ self.old.nodes.items
            ++ record { lit = lit; next = get_or self.old.heads.items lit.0 none } ∷ [] }
        ensures heads { self.new.heads.items
            ≡ set self.old.heads.items lit.0 (length self.old.nodes.items) }
        ensures capacity { vec_capacity self.new.nodes ≡ vec_capacity self.old.nodes }
    {
        let at = self.nodes.len() as u32;
        let next = self.heads[lit.0 as usize];
        self.nodes.push_reserved(Node { lit, next });
        self.heads[lit.0 as usize] = at;
    }

    /// Puts two nodes last and first into the chains of their literals. There is room for them.
    pub fn put_two(&mut self, one: Lit, two: Lit)
        requires room { length self.old.nodes.items + 2 ≤ none }
        requires reserved { vec_len self.old.nodes + 2 ≤ vec_capacity self.old.nodes }
        requires one { one.0 < length self.old.heads.items }
        requires two { two.0 < length self.old.heads.items }
        ensures { AreNodesPut one two self.old self.new }
    {
        self.put(one);
        self.put(two);
    }

    /// Puts a node that is in no chain first into the chain of a literal.
    pub fn link(&mut self, at: u32, lit: Lit)
        requires node { at < length self.old.nodes.items }
        requires head { lit.0 < length self.old.heads.items }
        ensures nodes { self.new.nodes.items ≡ set self.old.nodes.items at
            (record { lit = lit; next = get_or self.old.heads.items lit.0 none }) }
        ensures heads { self.new.heads.items ≡ set self.old.heads.items lit.0 at }
    {
        let next = self.heads[lit.0 as usize];
        self.nodes[at as usize] = Node { lit, next };
        self.heads[lit.0 as usize] = at;
    }

    /// Builds the chains anew from the literals of the nodes.
    pub fn link_all(&mut self)
        requires few { length self.old.nodes.items ≤ none }
        requires coded { AreCoded self.old.nodes.items self.old.heads.items }
        ensures { AreLinkedAnew self.old self.new }
    {
        empty(&mut self.heads);
        for at in 0..self.nodes.len() {
            let lit = self.nodes[at].lit;
            self.link(at as u32, lit);
        }
    }

    /// Takes the node after `last` out of the chain of a literal, or the first one where that is
    /// none. The node `next` follows it.
    pub fn unlink(&mut self, lit: Lit, last: u32, next: u32)
        requires node { last ≢ none → last < length self.old.nodes.items }
        requires head { lit.0 < length self.old.heads.items }
        ensures { IsUnlinked self.old.nodes.items self.old.heads.items lit.0 last next
            self.new.nodes.items self.new.heads.items }
    {
        if last == NONE {
            self.heads[lit.0 as usize] = next;
        } else {
            self.nodes[last as usize].next = next;
        }
    }
}

/// Empties all chains.
fn empty(heads: &mut Vec<u32>)
    ensures count { length heads.new.items ≡ length heads.old.items }
    ensures empty { AreEmpty heads.new.items }
{
    for code in 0..heads.len() {
        heads[code] = NONE;
    }
}

/// The other node of the clause of a node.
pub fn partner(at: u32) -> u32
    ensures { result ≡ partner_of at }
{
    at ^ 1
}
