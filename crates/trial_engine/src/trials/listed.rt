// Theories that are lists of clauses. They give them at the end or late.
ghost use Rattle.std.specs.Prelude.{◌≡◌, ◌≢◌, ◌↔◌, [], All, Contains, IfOk, IfSome, IfNone};
ghost use Rattle.std.specs.Prelude.{IsTrue, false, length};
ghost use Rattle.clause_store.specs.Clause.{AreOver, IsOver};
ghost use Rattle.clause_store.specs.Standing.{IsFalse, IsFalseOn};
ghost use Rattle.clause_store.specs.Trail.{value_of};
ghost use Rattle.propagator.specs.Fixpoint.{IsQuietOn};
ghost use Rattle.assumption_engine.specs.Theory.{IsFalseOrForces};
ghost use Rattle.trial_engine.specs.Told.{HasFound, IsClauseOver, IsEndOf, IsSpentAt};
ghost use Rattle.trial_engine.specs.Told.{meaning_of};

use assumption_engine::{Check, Theory};
use clause_store::{Clause, Lit, Says, Store, Trail, Units, Value};
use ground_program::Set;
use item_list::NoMemory;
use std::alloc::Global;
use std::marker::Model;
use std::snapshot::Snapshot;

/// When a theory gives its clauses.
#[derive(Debug, Drop, Clone, Copy, PartialEq, Eq)]
pub enum Manner {
    /// Only where all is assigned.
    AtTheEnd,
    /// Each time that it is asked so many times, and where all is assigned.
    Every(u32),
    /// Only where all is assigned, and each model is answered as a spent check.
    Spends,
}

/// The theory of a list of clauses. Its models meet them and those that the store has from the
/// beginning.
#[derive(Drop)]
pub struct Listed {
    alloc: Global,
    vars: u32,
    base: Snapshot<Store>,
    clauses: Units,
    spends: bool,
    pace: u32,
    asked: u32,
}

impl Model for Listed {
    ghost use Rattle.trial_engine.specs.Told.{Told, IsClauseOver};
    ghost use Rattle.std.specs.Prelude.{All};

    ghost Value = { Told };

    ghost view = { λ it. record {
      vars = it.vars;
      base = it.base.value;
      clauses = it.clauses;
      spends = it.spends;
    } };

    ghost invariant = { λ it. All (IsClauseOver it.vars) it.clauses };
}

impl Listed {
    /// The theory of clauses over the variables 1 to `vars`, beside the clauses of a store.
    pub fn of(alloc: Global, vars: u32, store: &Store, clauses: Units, manner: Manner) -> Listed
        requires { All (IsClauseOver vars) clauses }
        ensures vars { result.vars ≡ vars }
        ensures base { result.base ≡ store.now }
        ensures clauses { result.clauses ≡ clauses }
    {
        Listed {
            alloc,
            vars,
            base: Snapshot::of(store),
            clauses,
            spends: manner == Manner::Spends,
            pace: pace_of(manner),
            asked: 0,
        }
    }

    /// Whether it looks for a clause this time.
    fn is_time(&mut self) -> bool
        ensures { self.new ≡ self.old }
    {
        self.asked = self.asked.wrapping_add(1);
        self.pace > 0 && self.asked % self.pace == 0
    }
}

/// How often a theory is asked until it looks for a clause, or 0.
fn pace_of(manner: Manner) -> u32 {
    match manner {
        Manner::Every(pace) => pace,
        _ => 0,
    }
}

impl Theory for Listed {
    ghost meaning = { meaning_of };

    ghost followed = { λ it. [] };

    fn propagate(&mut self, trail: &Trail, out: &mut Clause) -> Result<Says, NoMemory> {
        if !self.is_time() {
            return Ok(Says::Quiet);
        }
        find(self.alloc, trail, self.clauses.as_slice(), out)
    }

    fn complete_check(&mut self, trail: &Trail, out: &mut Clause, limit: u32) -> Check {
        match find(self.alloc, trail, self.clauses.as_slice(), out) {
            Err(_) => Check::NoMemory,
            Ok(Says::Clause) => Check::Clause,
            Ok(Says::Quiet) => end_of(self.alloc, self.spends, limit),
        }
    }

    fn undo(&mut self, _trail: &Trail) {}
}

/// Accepts a model, or says that its check is spent.
fn end_of(alloc: Global, spends: bool, limit: u32) -> Check
    ensures { IsEndOf spends limit result }
{
    if !spends {
        return Check::Accept;
    }
    match spent(alloc, limit) {
        Ok(check) => check,
        Err(_) => Check::NoMemory,
    }
}

/// A check that is spent, within the set of one atom, by empty clauses.
fn spent(alloc: Global, limit: u32) -> Result<Check, NoMemory>
    ensures { IfOk result (IsSpentAt limit) }
{
    let mut set = Set::open();
    set.push(alloc, true)?;
    let units = empty_clauses(alloc, limit)?;
    Ok(Check::Spent { set, units })
}

/// So many empty clauses.
fn empty_clauses(alloc: Global, count: u32) -> Result<Units, NoMemory>
    ensures { IfOk result (λ it. length it ≡ count) }
{
    let mut units = Units::open();
    for _ in 0..count {
        units.push(alloc, Clause::open())?;
    }
    Ok(units)
}

/// Copies the first clause that is false or forces a literal.
fn find(
    alloc: Global,
    trail: &Trail,
    clauses: &[Clause],
    out: &mut Clause,
) -> Result<Says, NoMemory>
    requires { AreOver trail.now.vars clauses.now }
    ensures { IfOk result (HasFound clauses.now trail.now.steps out.new) }
{
    for clause in clauses {
        if acts(trail, clause.as_slice()) {
            *out = clause.copy(alloc)?;
            return Ok(Says::Clause);
        }
    }
    Ok(Says::Quiet)
}

/// Whether all literals are false, or all but one, which is unset.
fn acts(trail: &Trail, lits: &[Lit]) -> bool
    requires { All (IsOver trail.now.vars) lits.now }
    ensures acts { IsTrue result → IsFalseOrForces trail.now.steps lits.now }
    ensures quiet { result ≡ false → IsQuietOn trail.now.steps lits.now }
{
    match first_unset(trail, lits) {
        None => is_false(trail, lits),
        Some(lit) => others_are_false(trail, lits, lit),
    }
}

/// The first literal that is unset.
fn first_unset(trail: &Trail, lits: &[Lit]) -> Option<Lit>
    requires { All (IsOver trail.now.vars) lits.now }
    ensures here { IfSome result (Contains lits.now) }
    ensures unset { IfSome result (λ lit. value_of trail.now.steps lit ≡ Value.Unset) }
    ensures none { IfNone result
        (All (λ lit. value_of trail.now.steps lit ≢ Value.Unset) lits.now) }
{
    for lit in lits {
        if let Value::Unset = trail.value(*lit) {
            return Some(*lit);
        }
    }
    None
}

/// Whether all literals are false.
fn is_false(trail: &Trail, lits: &[Lit]) -> bool
    requires { All (IsOver trail.now.vars) lits.now }
    ensures { IsTrue result ↔ IsFalseOn trail.now.steps lits.now }
{
    for lit in lits {
        if !is_no(trail, *lit) {
            return false;
        }
    }
    true
}

/// Whether all literals but one are false.
fn others_are_false(trail: &Trail, lits: &[Lit], lit: Lit) -> bool
    requires { All (IsOver trail.now.vars) lits.now }
    ensures { IsTrue result
        ↔ All (λ other. other ≢ lit → IsFalse trail.now.steps other) lits.now }
{
    for other in lits {
        if *other != lit && !is_no(trail, *other) {
            return false;
        }
    }
    true
}

/// Whether a literal is false.
fn is_no(trail: &Trail, lit: Lit) -> bool
    requires { IsOver trail.now.vars lit }
    ensures { IsTrue result ↔ IsFalse trail.now.steps lit }
{
    match trail.value(lit) {
        Value::No => true,
        _ => false,
    }
}
