// The invariant speaks of each clause by itself: it is pending, or is watched at no literal and true
// at level 0, or each of its two watched literals isn't false, or is false by an assignment whose
// chain wasn't walked yet, or is false while the other one is true at a level that isn't higher. So
// no going back of the trail can break it, as none undoes level 0.
ghost use Rattle.std.specs.Prelude.{◌≡◌, ◌≤◌, ◌<◌, ◌^◌, [], length, IfOk, OnErr, IfNone, IfSome};
ghost use Rattle.clause_store.specs.Clause.{AreOver};
ghost use Rattle.clause_store.specs.Standing.{AreFollowed, HasGoneBack, IsConflict};
ghost use Rattle.propagator.specs.Watched.{IsAttached, IsReady};
ghost use Rattle.propagator.specs.Fixpoint.{IsFixpoint, Extends};

use crate::chains::{Chains, NONE};
use crate::choosing::choose;
use crate::entry::Entry;
use crate::laying::{Layout, lay_out_if_due};
use crate::pending::Pending;
use crate::run::run;
use crate::tables::Tables;
use clause_store::{ClauseRef, Store, Trail};
use item_list::NoMemory;
use std::alloc::Global;
use std::fmt;
use std::marker::Model;
use std::snapshot::Snapshot;

/// The greatest number of attached clauses: each has two nodes.
const MOST: usize = 2147483647;

/// The attached clauses, and the assignments that are followed.
#[derive(Drop)]
pub struct Watches {
    vars: u32,
    entries: Vec<Entry>,
    tables: Tables,
    known: Snapshot<Trail>,
    next: usize,
    looked: u64,
    layout: Layout,
}

impl Model for Watches {
    ghost use Rattle.std.specs.Prelude.{map};
    ghost use Rattle.clause_store.specs.Standing.{as_followed};
    ghost use Rattle.propagator.specs.Watched.{Watched};
    ghost use Rattle.watched_literals.specs.Watching.{AreWatching};

    ghost Value = { Watched };

    ghost view = { λ it. record {
      vars = it.vars;
      clauses = it.entries.items;
      followed = map as_followed it.known.value.steps;
    } };

    ghost invariant = { λ it. AreWatching it.vars it.entries.items it.tables
        (map as_followed it.known.value.steps) it.next };
}

impl Watches {
    /// The watches over the variables 1 to `vars`: no clause is attached and no assignment
    /// followed.
    pub fn open(alloc: Global, vars: u32) -> Result<Watches, NoMemory>
        requires { vars < 2 ^ 31 }
        ensures { IfOk result (λ it. it ≡ record { vars = vars; clauses = []; followed = [] }) }
    {
        let trail = Trail::open(alloc, 0)?;
        let heads = vec![in alloc; NONE; 2 * vars as usize + 2]?;
        let chains = Chains {
            nodes: Vec::new(alloc),
            heads,
        };
        Ok(Watches {
            vars,
            entries: Vec::new(alloc),
            tables: Tables {
                chains,
                saved: Vec::new(alloc),
                pending: Pending::open(alloc),
            },
            known: Snapshot::of(&trail),
            next: 0,
            looked: 0,
            layout: Layout {
                assigned: 0,
                looked: 0,
            },
        })
    }

    /// Puts the clause `at` of the store last; it may be attached already. After want of memory the
    /// watches are as before. A clause for which there is no number left is want of memory too.
    pub fn attach(
        &mut self,
        _alloc: Global,
        store: &Store,
        trail: &Trail,
        at: ClauseRef,
    ) -> Result<(), NoMemory>
        requires exists { at.0 < length store.now }
        requires same_vars { self.old.vars ≡ trail.now.vars }
        requires over { AreOver trail.now.vars store.now }
        ensures ok { IfOk result (λ _. IsAttached store.now at self.old self.new) }
        ensures err { OnErr result (self.new ≡ self.old) }
    {
        let row = self.entries.len();
        if row >= MOST {
            return Err(NoMemory);
        }
        self.entries.reserve(1)?;
        self.tables.make_room()?;
        let clause = store.lits(at);
        let choice = choose(clause, trail);
        self.tables.put(clause, choice, self.next);
        self.entries.push_reserved(Entry::of(store, at));
        Ok(())
    }

    /// Follows only assignments of the trail. It is called after each going back of the trail: what
    /// is followed was a front of an earlier trail, and the trail is what that has up to a level.
    pub fn rewind(&mut self, trail: &Trail)
        requires same_vars { self.old.vars ≡ trail.now.vars }
        requires gone_back { HasGoneBack trail.now self.old.followed }
        ensures rest { self.new ≡ record self.old { followed = self.new.followed } }
        ensures followed { AreFollowed trail.now.steps self.new.followed }
    {
        self.next = lesser(self.next, trail.steps().len());
        self.known = Snapshot::of(trail);
    }

    /// Assigns what the clauses of the store force, until nothing is left to do or a clause is
    /// false, which is given.
    pub(crate) fn follow(&mut self, store: &Store, trail: &mut Trail) -> Option<ClauseRef>
        requires { IsReady store.now trail.old self.old }
        ensures none { IfNone result (IsFixpoint store.now trail.new.steps) }
        ensures some { IfSome result (IsConflict store.now trail.new.steps) }
        ensures extends { Extends trail.old trail.new }
        ensures ready { IsReady store.now trail.new self.new }
        ensures rest { self.new ≡ record self.old { followed = self.new.followed } }
    {
        trail.vouch();
        let found = run(
            store,
            trail,
            self.entries.as_slice(),
            &mut self.tables,
            &mut self.looked,
            &mut self.next,
        );
        if found.is_none() {
            lay_out_if_due(
                store,
                trail,
                self.entries.as_slice(),
                &mut self.tables,
                &mut self.layout,
                self.looked,
                self.next,
            );
        }
        self.known = Snapshot::of(trail);
        found
    }

    /// How many clauses had their literals looked at. It stays at the greatest number.
    pub fn looked(&self) -> u64 {
        self.looked
    }
}

impl fmt::Debug for Watches {
    fn fmt<W: fmt::Write>(&self, f: &mut fmt::Formatter<W>) -> fmt::Result {
        self.entries.fmt(f)
    }
}

/// The lesser of two numbers.
fn lesser(one: usize, two: usize) -> usize
    ensures first { result ≤ one }
    ensures second { result ≤ two }
{
    if one < two { one } else { two }
}
