// What the base clauses of the pair program leave unsaid: its weight bodies. Clauses and weight
// bodies together are met by just the extensions of its models.
ghost use Rattle.std.specs.Prelude.{◌≡◌, [], IfOk};
ghost use Rattle.normal_program.specs.Limit.{IsNormal};
ghost use Rattle.kept_minimality.specs.Pairing.{meaning_of};

use assumption_engine::{Check, Theory};
use clause_store::{Clause, Says, Trail};
use item_list::NoMemory;
use normal_program::Normal;
use std::alloc::Global;
use std::marker::Model;
use weight_propagator::Weights;

/// The theory of a search among the models of a pair program.
#[derive(Drop)]
pub(crate) struct PairTheory {
    alloc: Global,
    pair: Normal,
    weights: Weights,
}

impl Model for PairTheory {
    ghost use Rattle.kept_minimality.specs.Pairing.{Paired, AreOfPair};

    ghost Value = { Paired };

    ghost view = { λ it. record { pair = it.pair; followed = it.weights.followed } };

    ghost invariant = { λ it. AreOfPair it.pair it.weights };
}

impl PairTheory {
    /// The weight bodies of the normal form of a pair program. No assignment is followed.
    pub(crate) fn open(alloc: Global, pair: Normal) -> Result<PairTheory, NoMemory>
        requires { IsNormal pair }
        ensures { IfOk result (λ it. it ≡ record { pair = pair; followed = [] }) }
    {
        let weights = Weights::open(alloc, &pair)?;
        Ok(PairTheory {
            alloc,
            pair,
            weights,
        })
    }
}

impl Theory for PairTheory {
    ghost meaning = { λ it. meaning_of it.pair };

    ghost followed = { λ it. it.followed };

    /// A clause that a weight body gives.
    fn propagate(&mut self, trail: &Trail, out: &mut Clause) -> Result<Says, NoMemory> {
        self.weights.propagate(self.alloc, &self.pair, trail, out)
    }

    /// Where no weight body gives a clause, the total assignment is a model.
    fn complete_check(&mut self, trail: &Trail, out: &mut Clause, limit: u32) -> Check {
        let _ = limit;
        trail.vouch();
        match self.weights.propagate(self.alloc, &self.pair, trail, out) {
            Ok(Says::Clause) => Check::Clause,
            Ok(Says::Quiet) => Check::Accept,
            Err(_) => Check::NoMemory,
        }
    }

    fn undo(&mut self, trail: &Trail) {
        self.weights.undo(trail);
    }
}
