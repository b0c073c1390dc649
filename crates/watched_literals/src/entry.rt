// A place of an attached clause. Contracts also see the literals that the clause had when it was
// attached; they take no room.
ghost use Rattle.std.specs.Prelude.{◌≡◌, ◌<◌, length, slice_get, Some};

use clause_store::{ClauseRef, Store};
use std::fmt;
use std::marker::Model;
use std::snapshot::Snapshot;

/// An attached clause.
#[derive(Drop)]
pub struct Entry {
    at: ClauseRef,
    had: Snapshot<Store>,
}

impl Model for Entry {
    ghost use Rattle.std.specs.Prelude.{slice_index_or, []};
    ghost use Rattle.propagator.specs.Watched.{Attached};

    ghost Value = { Attached };

    ghost view = { λ it. record { at = it.at; lits = slice_index_or it.had.value it.at.0 [] } };
}

impl Entry {
    /// The clause of the store as it is now.
    pub fn of(store: &Store, at: ClauseRef) -> Entry
        requires { at.0 < length store.now }
        ensures at { result.at ≡ at }
        ensures lits { slice_get store.now at.0 ≡ Some result.lits }
    {
        Entry {
            at,
            had: Snapshot::of(store),
        }
    }

    /// The number of the clause.
    pub fn at(&self) -> ClauseRef
        ensures { result ≡ self.now.at }
    {
        self.at
    }
}

impl fmt::Debug for Entry {
    fn fmt<W: fmt::Write>(&self, f: &mut fmt::Formatter<W>) -> fmt::Result {
        self.at.fmt(f)
    }
}
