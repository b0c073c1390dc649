// Candidates that are proved by what a tester knows at level 0. Those of facts are so proved in the
// first round that proves any, and one line with the sizes of the pair follows them all.
ghost use Rattle.std.specs.Prelude.{◌≡◌, IfOk, IfSome, OnOk};
ghost use Rattle.normal_program.specs.Limit.{IsNormal};
ghost use Rattle.worker_strategies.specs.Facts.{AreFactsOf, HasProved, IsCompleted};
ghost use Rattle.worker_strategies.specs.Facts.{ProvesMore};
ghost use Rattle.worker_strategies.specs.Rounds.{IsReady};

use crate::links::Links;
use crate::rounds::Rounds;
use clause_store::Lit;
use ground_program::{Atoms, Mode};
use item_list::NoMemory;
use normal_program::{Normal, normal_form_is_in_range};
use std::alloc::Global;
use worker_jobs::Gain;

/// With fewer candidates each is proved by a test of its own.
const MANY: usize = 64;

/// What is kept between rounds to prove candidates by what came to level 0 of the main tester.
#[derive(Drop)]
pub struct Facts<'a> {
    links: Links<'a>,
    /// Whether a candidate was proved, by its number.
    proved: Vec<bool>,
    /// How many assignments of level 0 were looked at.
    seen: u32,
    /// The number of variables. Each is assigned once at most.
    variables: u32,
}

impl<'a> Facts<'a> {
    /// Facts of a normal form with many candidates, none of which was proved so far.
    pub(crate) fn open(
        alloc: Global,
        normal: &'a Normal,
        mode: Mode,
    ) -> Result<Option<Facts<'a>>, NoMemory>
        requires { IsNormal normal.now }
        ensures { IfOk result (λ it. AreFactsOf normal.now mode it) }
    {
        if normal.names.len() < MANY {
            return Ok(None);
        }
        normal_form_is_in_range();
        let links = Links::open(alloc, normal, mode)?;
        let proved = vec![in alloc; false; normal.names.len() + 1]?;
        Ok(Some(Facts {
            links,
            proved,
            seen: 0,
            variables: normal.variables(),
        }))
    }

    /// Adds the candidates whose test literals are refuted by what came to level 0 since this was
    /// done last, but for those that were proved before.
    fn look(
        &mut self,
        alloc: Global,
        rounds: &Rounds<'_>,
        proved: &mut Atoms,
    ) -> Result<(), NoMemory>
        requires ready { IsReady rounds.now }
        requires normal { self.old.links.normal ≡ rounds.now.normal }
        ensures proved { OnOk result
            (ProvesMore rounds.now.normal self.old.links.mode proved.old proved.new) }
        ensures links { self.new.links ≡ self.old.links }
    {
        mark_all(&mut self.proved, proved.as_slice());
        for place in self.seen..self.variables {
            let Some(lit) = rounds.refuted_at(place) else {
                return Ok(());
            };
            self.prove(alloc, lit, proved)?;
            self.seen = place + 1;
        }
        Ok(())
    }

    /// Adds the candidates of a test literal that aren't marked, and marks them.
    fn prove(&mut self, alloc: Global, lit: Lit, proved: &mut Atoms) -> Result<(), NoMemory>
        ensures proved { OnOk result (HasProved self.old.links lit proved.old proved.new) }
        ensures same { self.new ≡ record self.old { proved = self.new.proved } }
    {
        let mut cand = self.links.greatest_of(lit);
        'cands: while cand > 0 {
            if mark_new(&mut self.proved, cand) {
                proved.push(alloc, cand)?;
            }
            cand = self.links.smaller_than(cand);
        }
        Ok(())
    }
}

/// Adds to a gain that proves something the other candidates that are proved by what came to level
/// 0 of the main tester since this was done last. Below 64 candidates nothing is added.
pub(crate) fn complete(
    alloc: Global,
    facts: &mut Option<Facts<'_>>,
    rounds: &Rounds<'_>,
    gain: &mut Gain,
) -> Result<(), NoMemory>
    requires ready { IsReady rounds.now }
    requires facts { AreFactsOf rounds.now.normal rounds.now.mode facts.old }
    ensures facts { AreFactsOf rounds.now.normal rounds.now.mode facts.new }
    ensures gain { OnOk result (IsCompleted rounds.now.normal rounds.now.mode gain.old gain.new) }
{
    match facts {
        Some(facts) if gain.proved.len() > 0 => facts.look(alloc, rounds, &mut gain.proved),
        _ => Ok(()),
    }
}

/// Marks candidates as proved.
fn mark_all(marks: &mut Vec<bool>, cands: &[u32]) {
    for cand in cands {
        mark_new(marks, *cand);
    }
}

/// Whether a candidate wasn't marked so far. It is marked then.
fn mark_new(marks: &mut Vec<bool>, cand: u32) -> bool {
    match marks.get_mut(cand as usize) {
        Some(mark) => {
            let is_new = !*mark;
            *mark = true;
            is_new
        }
        None => false,
    }
}
