// What the clauses for the parts of a set leave unsaid: the weight bodies, whose negative literals
// the set judges. Clauses and weight bodies together are met by just the extensions of smaller
// parts.
ghost use Rattle.std.specs.Prelude.{◌≡◌, [], IfOk};
ghost use Rattle.ground_program.specs.Meaning.{IsSetOver};
ghost use Rattle.normal_program.specs.Limit.{IsNormal};
ghost use Rattle.minimality_test.specs.Parts.{meaning_of};

use assumption_engine::{Check, Theory};
use clause_store::{Clause, Says, Trail};
use ground_program::Set;
use item_list::NoMemory;
use normal_program::Normal;
use std::alloc::Global;
use std::marker::Model;
use std::snapshot::Snapshot;
use weight_propagator::Weights;

/// The theory of a search among the parts of a set.
#[derive(Drop)]
pub(crate) struct PartTheory<'a> {
    alloc: Global,
    normal: &'a Normal,
    set: Snapshot<Set>,
    weights: Weights,
}

impl<'a> Model for PartTheory<'a> {
    ghost use Rattle.minimality_test.specs.Parts.{PartsOf, AreParts};

    ghost Value = { PartsOf };

    ghost view = { λ it. record {
      normal = it.normal.now;
      set = it.set.value;
      followed = it.weights.followed;
    } };

    ghost invariant = { λ it. AreParts it.normal.now it.set.value it.weights };
}

impl<'a> PartTheory<'a> {
    /// The weight bodies as a set judges them. No assignment is followed.
    pub(crate) fn open(
        alloc: Global,
        normal: &'a Normal,
        set: &Set,
    ) -> Result<PartTheory<'a>, NoMemory>
        requires normal { IsNormal normal.now }
        requires over { IsSetOver normal.now.atoms set.now }
        ensures { IfOk result (λ it. it
            ≡ record { normal = normal.now; set = set.now; followed = [] }) }
    {
        let weights = Weights::open_within(alloc, normal, set)?;
        Ok(PartTheory {
            alloc,
            normal,
            set: Snapshot::of(set),
            weights,
        })
    }
}

impl<'a> Theory for PartTheory<'a> {
    ghost meaning = { λ it. meaning_of it.normal it.set };

    ghost followed = { λ it. it.followed };

    /// A clause that a weight body gives.
    fn propagate(&mut self, trail: &Trail, out: &mut Clause) -> Result<Says, NoMemory> {
        self.weights.propagate(self.alloc, self.normal, trail, out)
    }

    /// Where no weight body gives a clause, the total assignment comes from a smaller part.
    fn complete_check(&mut self, trail: &Trail, out: &mut Clause, limit: u32) -> Check {
        let _ = limit;
        trail.vouch();
        match self.weights.propagate(self.alloc, self.normal, trail, out) {
            Ok(Says::Clause) => Check::Clause,
            Ok(Says::Quiet) => Check::Accept,
            Err(_) => Check::NoMemory,
        }
    }

    fn undo(&mut self, trail: &Trail) {
        self.weights.undo(trail);
    }
}
