// A theory that says no more than the clauses which the store has from the beginning.
ghost use Rattle.std.specs.Prelude.{◌≡◌, []};
ghost use Rattle.trial_following.specs.Searching.{meaning_of};

use assumption_engine::{Check, Theory};
use clause_store::{Clause, Says, Store, Trail};
use item_list::NoMemory;
use std::marker::Model;
use std::snapshot::Snapshot;

/// The clauses of a store, as contracts see them.
#[derive(Drop)]
pub struct Silent {
    clauses: Snapshot<Store>,
}

impl Model for Silent {
    ghost use Rattle.std.specs.Prelude.{List};
    ghost use Rattle.clause_store.specs.declared.literal.Lit.{Lit};

    ghost Value = { List (List Lit) };

    ghost view = { λ it. it.clauses.value };
}

impl Silent {
    /// The theory of the clauses of a store.
    pub fn of(store: &Store) -> Silent
        ensures { result ≡ store.now }
    {
        Silent {
            clauses: Snapshot::of(store),
        }
    }
}

impl Theory for Silent {
    ghost meaning = { meaning_of };

    ghost followed = { λ it. [] };

    fn propagate(&mut self, _trail: &Trail, _out: &mut Clause) -> Result<Says, NoMemory> {
        Ok(Says::Quiet)
    }

    fn complete_check(&mut self, _trail: &Trail, _out: &mut Clause, _limit: u32) -> Check {
        Check::Accept
    }

    fn undo(&mut self, _trail: &Trail) {}
}
