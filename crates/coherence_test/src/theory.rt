// Weight bodies are asked first, and where they are quiet which atoms are unfounded. Where nothing
// is said of a total assignment, and some rule is disjunctive, it is asked which single atoms no
// rule supports, and then its atoms are tested for being minimal.
ghost use Rattle.std.specs.Prelude.{◌≡◌, ◌≤◌, ◌↔◌, [], box_value, IfOk, IfSome, IsTrue, List};
ghost use Rattle.std.specs.Prelude.{OnOk};
ghost use Rattle.ground_program.specs.declared.program.Kind.TheVariants.{Disjunctive};
ghost use Rattle.ground_program.specs.Meaning.{IsSetOver};
ghost use Rattle.clause_store.specs.Clause.{Meets};
ghost use Rattle.clause_store.specs.Standing.{AreFollowed, Followed, HasGoneBack};
ghost use Rattle.clause_store.specs.Trail.{IsTotal, values_of};
ghost use Rattle.normal_program.specs.Clauses.{base_clauses};
ghost use Rattle.normal_program.specs.Limit.{IsNormal};
ghost use Rattle.normal_program.specs.Models.{set_of};
ghost use Rattle.normal_program.specs.Normal.{greatest_body_var};
ghost use Rattle.normal_program.specs.Spent.{IsDisjunctive};
ghost use Rattle.assumption_engine.specs.Theory.{Meaning, MeansTheSame, IsGiven, IsChecked};
ghost use Rattle.minimality_test.specs.Minimality.{IsSmallerThan};
ghost use Rattle.coherence_test.specs.AnswerSets.{answer_sets};
ghost use Rattle.coherence_test.specs.Looking.{IsCandidate, IsFoundOn, IsLookedAt, IsSaidOf};
ghost use Rattle.coherence_test.specs.Looking.{MayBeLoop};

use crate::telling::set_on;
use assumption_engine::{Check, Theory};
use clause_store::{Budget, Clause, Says, Trail};
use ground_program::{Kind, Set};
use item_list::NoMemory;
use kept_minimality::SmallerSets;
use minimality_test::{Minimality, smaller};
use normal_program::Normal;
use std::alloc::Global;
use std::marker::Model;
use unfounded_sets::{Found, Unfounded};
use weight_propagator::Weights;

/// What a search knows of a normal form beyond its base clauses. Its models are the assignments
/// that extend answer sets.
#[derive(Drop)]
pub struct AnswerSetTheory<'a> {
    alloc: Global,
    normal: &'a Normal,
    weights: Weights,
    unfounded: Unfounded,
    disjunctive: bool,
    kept: Option<Box<SmallerSets>>,
}

impl<'a> Model for AnswerSetTheory<'a> {
    ghost use Rattle.std.specs.Prelude.{◌≡◌, box_value, IfSome};
    ghost use Rattle.coherence_test.specs.AnswerSets.{Theorised, AreOfOne, longer};

    ghost Value = { Theorised };

    ghost view = { λ it. record {
      normal = it.normal.now;
      followed = longer it.weights.followed it.unfounded.followed;
    } };

    ghost invariant = { λ it. AreOfOne it.normal.now it.weights it.unfounded it.disjunctive
        × IfSome it.kept (λ kept. box_value kept ≡ it.normal.now) };
}

impl<'a> AnswerSetTheory<'a> {
    /// The theory of a normal form. No assignment is followed.
    pub fn open(alloc: Global, normal: &'a Normal) -> Result<AnswerSetTheory<'a>, NoMemory>
        requires { IsNormal normal.now }
        ensures { IfOk result (λ it. it ≡ record { normal = normal.now; followed = [] }) }
    {
        let weights = Weights::open(alloc, normal)?;
        let unfounded = Unfounded::open(alloc, normal)?;
        let disjunctive = has_disjunction(normal);
        let kept = if disjunctive {
            open_kept(alloc, normal)?
        } else {
            None
        };
        Ok(AnswerSetTheory {
            alloc,
            normal,
            weights,
            unfounded,
            disjunctive,
            kept,
        })
    }

    /// A clause that a weight body gives or, where these are quiet, a loop clause.
    fn look(&mut self, alloc: Global, trail: &Trail, out: &mut Clause) -> Result<Says, NoMemory>
        requires range { greatest_body_var self.old.normal ≤ trail.now.vars }
        requires followed { AreFollowed trail.now.steps self.old.followed }
        ensures says { IfOk result (IsLookedAt self.old.normal trail.now out.new) }
        ensures followed { AreFollowed trail.now.steps self.new.followed }
        ensures normal { self.new.normal ≡ self.old.normal }
    {
        if let Says::Clause = self.weights.propagate(alloc, self.normal, trail, out)? {
            return Ok(Says::Clause);
        }
        match self.find_unfounded(alloc, trail, out)? {
            Found::Loop => Ok(Says::Clause),
            Found::Nothing => Ok(Says::Quiet),
        }
    }

    /// A loop clause of some atoms that aren't founded.
    fn find_unfounded(
        &mut self,
        alloc: Global,
        trail: &Trail,
        out: &mut Clause,
    ) -> Result<Found, NoMemory>
        requires range { greatest_body_var self.old.normal ≤ trail.now.vars }
        requires followed { AreFollowed trail.now.steps self.old.followed }
        ensures found { IfOk result (IsFoundOn self.old.normal trail.now out.new) }
        ensures followed { AreFollowed trail.now.steps self.new.followed }
        ensures normal { self.new.normal ≡ self.old.normal }
    {
        self.unfounded.find(alloc, self.normal, trail, out)
    }

    /// Judges a total assignment. Where weight bodies and founding say nothing, only a disjunctive
    /// rule leaves in doubt whether its atoms are minimal.
    fn judge(
        &mut self,
        alloc: Global,
        trail: &Trail,
        out: &mut Clause,
        limit: u32,
    ) -> Result<Check, NoMemory>
        requires range { greatest_body_var self.old.normal ≤ trail.now.vars }
        requires followed { AreFollowed trail.now.steps self.old.followed }
        requires total { IsTotal trail.now }
        requires meets { Meets (values_of trail.now) (base_clauses self.old.normal) }
        requires some { 1 ≤ limit }
        ensures answer { IfOk result
            (IsChecked (answer_sets self.old.normal) trail.now limit out.new) }
        ensures followed { AreFollowed trail.now.steps self.new.followed }
        ensures normal { self.new.normal ≡ self.old.normal }
    {
        trail.vouch();
        match self.look(alloc, trail, out)? {
            Says::Clause => Ok(Check::Clause),
            Says::Quiet if self.disjunctive => self.judge_disjunctive(alloc, trail, limit, out),
            Says::Quiet => Ok(Check::Accept),
        }
    }

    /// Judges a total assignment where some rule is disjunctive. A loop clause of one atom that no
    /// rule supports costs less than the test of its atoms.
    fn judge_disjunctive(
        &mut self,
        alloc: Global,
        trail: &Trail,
        limit: u32,
        out: &mut Clause,
    ) -> Result<Check, NoMemory>
        requires candidate { IsCandidate self.old.normal trail.now }
        requires disjunctive { IsDisjunctive self.old.normal }
        requires some { 1 ≤ limit }
        ensures answer { IfOk result
            (IsChecked (answer_sets self.old.normal) trail.now limit out.new) }
        ensures same { self.new ≡ self.old }
    {
        let _ = &self.normal;
        match self.find_single(alloc, trail, out)? {
            Found::Loop => Ok(Check::Clause),
            Found::Nothing => self.judge_parts(alloc, trail, limit, out),
        }
    }

    /// A loop clause of one atom that no rule supports.
    fn find_single(
        &mut self,
        alloc: Global,
        trail: &Trail,
        out: &mut Clause,
    ) -> Result<Found, NoMemory>
        requires { greatest_body_var self.old.normal ≤ trail.now.vars }
        ensures found { IfOk result (MayBeLoop self.old.normal trail.now out.new) }
        ensures same { self.new ≡ self.old }
    {
        match self.unfounded.find_single(alloc, self.normal, trail, out)? {
            Found::Loop => Ok(Found::Loop),
            Found::Nothing => Ok(Found::Nothing),
        }
    }

    /// Looks for a smaller set that keeps the rules of the reduct, by the kept search. Where that
    /// is spent, or there is none, one is made anew, since the units of a spent check are those of
    /// the clauses inside its set.
    fn judge_parts(
        &mut self,
        alloc: Global,
        trail: &Trail,
        limit: u32,
        out: &mut Clause,
    ) -> Result<Check, NoMemory>
        requires candidate { IsCandidate self.old.normal trail.now }
        requires disjunctive { IsDisjunctive self.old.normal }
        requires some { 1 ≤ limit }
        ensures answer { IfOk result
            (IsChecked (answer_sets self.old.normal) trail.now limit out.new) }
        ensures same { self.new ≡ self.old }
    {
        let set = set_on(alloc, trail, self.normal.atoms)?;
        match self.ask_kept(alloc, &set, limit) {
            Minimality::Minimal => Ok(Check::Accept),
            Minimality::Smaller(part) => {
                self.deny_others(alloc, trail, &part, out)?;
                Ok(Check::Clause)
            }
            Minimality::Spent => self.judge_anew(alloc, trail, set, limit, out),
            Minimality::NoMemory => Err(NoMemory),
        }
    }

    /// What the kept search says of a set: Spent too where there is none.
    fn ask_kept(&mut self, alloc: Global, set: &Set, limit: u32) -> Minimality
        requires over { IsSetOver self.old.normal.atoms set.now }
        requires some { 1 ≤ limit }
        ensures says { IsSaidOf self.old.normal set.now result }
        ensures same { self.new ≡ self.old }
    {
        match &mut self.kept {
            None => Minimality::Spent,
            Some(kept) => kept.smaller(alloc, set, &mut Budget::new(limit)),
        }
    }

    /// Looks for a smaller set by a search of its own.
    fn judge_anew(
        &mut self,
        alloc: Global,
        trail: &Trail,
        set: Set,
        limit: u32,
        out: &mut Clause,
    ) -> Result<Check, NoMemory>
        requires candidate { IsCandidate self.old.normal trail.now }
        requires disjunctive { IsDisjunctive self.old.normal }
        requires atoms { set ≡ set_of self.old.normal (values_of trail.now) }
        requires some { 1 ≤ limit }
        ensures answer { IfOk result
            (IsChecked (answer_sets self.old.normal) trail.now limit out.new) }
        ensures same { self.new ≡ self.old }
    {
        let mut budget = Budget::new(limit);
        match smaller(alloc, self.normal, &set, &mut budget) {
            Minimality::Minimal => Ok(Check::Accept),
            Minimality::Smaller(part) => {
                self.deny_others(alloc, trail, &part, out)?;
                Ok(Check::Clause)
            }
            Minimality::Spent => Ok(Check::Spent {
                set,
                units: budget.into_units(),
            }),
            Minimality::NoMemory => Err(NoMemory),
        }
    }

    /// A loop clause for the atoms that a smaller set lacks.
    fn deny_others(
        &mut self,
        alloc: Global,
        trail: &Trail,
        part: &Set,
        out: &mut Clause,
    ) -> Result<(), NoMemory>
        requires candidate { IsCandidate self.old.normal trail.now }
        requires smaller { IsSmallerThan self.old.normal
            (set_of self.old.normal (values_of trail.now)) part.now }
        ensures given { OnOk result (IsGiven (answer_sets self.old.normal) trail.now out.new) }
        ensures same { self.new ≡ self.old }
    {
        self.unfounded
            .deny_others(alloc, self.normal, trail, part, out)
    }
}

/// A search for smaller sets that is kept, unless its pair program is too large.
fn open_kept(alloc: Global, normal: &Normal) -> Result<Option<Box<SmallerSets>>, NoMemory>
    requires { IsNormal normal.now }
    ensures { IfOk result (λ it. IfSome it (λ kept. box_value kept ≡ normal.now)) }
{
    match SmallerSets::open(alloc, normal)? {
        None => Ok(None),
        Some(kept) => Ok(Some(Box::new(alloc, kept)?)),
    }
}

/// Whether some rule is disjunctive.
pub(crate) fn has_disjunction(normal: &Normal) -> bool
    ensures { IsTrue result ↔ IsDisjunctive normal.now }
{
    normal
        .rules
        .as_slice()
        .iter()
        .any(|rule| is_disjunction(rule.kind))
}

fn is_disjunction(kind: Kind) -> bool
    ensures { IsTrue result ↔ (kind ≡ Disjunctive) }
{
    match kind {
        Kind::Basic | Kind::Constraint | Kind::Choice | Kind::Weight => false,
        Kind::Disjunctive => true,
    }
}

impl<'a> Theory for AnswerSetTheory<'a> {
    ghost meaning = { λ it. answer_sets it.normal };

    ghost followed = { λ it. it.followed };

    fn propagate(&mut self, trail: &Trail, out: &mut Clause) -> Result<Says, NoMemory> {
        self.look(self.alloc, trail, out)
    }

    fn complete_check(&mut self, trail: &Trail, out: &mut Clause, limit: u32) -> Check {
        match self.judge(self.alloc, trail, out, limit) {
            Ok(check) => check,
            Err(_) => Check::NoMemory,
        }
    }

    fn undo(&mut self, trail: &Trail) {
        self.weights.undo(trail);
        self.unfounded.undo(trail);
    }
}
