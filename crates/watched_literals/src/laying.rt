// The watches are laid out anew at level 0: no watch is on a literal that is false there, a clause
// that is true there has none, and one of two other literals is marked as such. Level 0 isn't
// undone while the watches live, so what is laid out stays.
ghost use Rattle.std.specs.Prelude.{◌≡◌, length};
ghost use Rattle.clause_store.specs.Trail.{present_level};
ghost use Rattle.watched_literals.specs.Laying.{AreLaid};
ghost use Rattle.watched_literals.specs.Walking.{IsRunning};

use crate::entry::Entry;
use crate::left::Left;
use crate::tables::Tables;
use clause_store::{Store, Trail};

/// When the watches were laid out last: how many assignments there were at level 0, and how many
/// clauses had been looked at.
#[derive(Debug, Drop, Clone, Copy)]
pub struct Layout {
    pub assigned: usize,
    pub looked: u64,
}

impl Layout {
    /// Whether level 0 has more assignments, and so many clauses were looked at that a walk through
    /// all of them is no more.
    fn is_due(&self, assigned: usize, looked: u64, clauses: usize) -> bool {
        self.assigned < assigned && clauses as u64 <= looked.saturating_sub(self.looked)
    }
}

/// Lays the watches out anew if the trail is at level 0 and it is due.
pub fn lay_out_if_due(
    store: &Store,
    trail: &Trail,
    entries: &[Entry],
    tables: &mut Tables,
    layout: &mut Layout,
    looked: u64,
    next: usize,
)
    requires running { IsRunning store.now entries.now trail.now tables.old next }
    ensures running { IsRunning store.now entries.now trail.now tables.new next }
{
    let assigned = trail.steps().len();
    if trail.level() == 0 && layout.is_due(assigned, looked, entries.len()) {
        lay_out(store, trail, entries, tables, next);
        *layout = Layout { assigned, looked };
    }
}

/// Lays the watches out anew.
fn lay_out(store: &Store, trail: &Trail, entries: &[Entry], tables: &mut Tables, next: usize)
    requires running { IsRunning store.now entries.now trail.now tables.old next }
    requires level { present_level trail.now.steps ≡ 0 }
    ensures running { IsRunning store.now entries.now trail.now tables.new next }
{
    choose_all(store, trail, entries, tables, next);
    tables.chains.link_all();
}

/// Chooses anew for each clause where it is watched. The chains aren't linked then.
fn choose_all(store: &Store, trail: &Trail, entries: &[Entry], tables: &mut Tables, next: usize)
    requires running { IsRunning store.now entries.now trail.now tables.old next }
    requires level { present_level trail.now.steps ≡ 0 }
    ensures { AreLaid entries.now trail.now tables.new (length entries.now) }
{
    let _ = next;
    for row in 0..entries.len() {
        let left = Left::of(store.lits(entries[row].at()), trail);
        tables.seat(row, left);
    }
}
