// The clauses of a search for a proper part of a set that keeps the rules of the reduct by the set.
ghost use Rattle.std.specs.Prelude.{◌≡◌, ◌≤◌, [], ◌∷◌, ◌++◌, map, filter, flat_map, not, All, OnOk};
ghost use Rattle.std.specs.Prelude.{OnErr, if◌then◌else◌};
ghost use Rattle.ground_program.specs.Meaning.{has, IsSetOver};
ghost use Rattle.clause_store.specs.Clause.{AreOver};
ghost use Rattle.clause_store.specs.Trail.{KeepsTrails};
ghost use Rattle.normal_program.specs.Body.{is_conjunctive};
ghost use Rattle.normal_program.specs.Normal.{greatest_body_var};
ghost use Rattle.normal_program.specs.Clauses.{positive, negative, alone, all_clauses, literals_of};
ghost use Rattle.normal_program.specs.Clauses.{numbered_bodies, is_choice, rule_clauses, cleaned};
ghost use Rattle.normal_program.specs.Limit.{IsNormal};
ghost use Rattle.normal_program.specs.Range.{IsInRange};
ghost use Rattle.normal_program.specs.Spent.{is_blocked, positive_parts, atoms_in, atoms_outside};
ghost use Rattle.normal_program.specs.Spent.{inner_body_clauses, inner_choice_clauses};
ghost use Rattle.normal_program.specs.Spent.{inner_clauses};
ghost use Rattle.completion.specs.Filling.{Adds, GainsFirst, IsVar};
ghost use Rattle.completion.specs.Drafts.{with_lit};
ghost use Rattle.completion.specs.Within.{HoldWithin, MakeSmaller};

use crate::body_clauses::define;
use crate::draft::{Added, Draft};
use crate::rule_clauses::{add_rules, is_choice_rule};
use crate::short_clauses::{add_alone, add_two};
use clause_store::{Lit, Store, Var};
use ground_program::Set;
use item_list::NoMemory;
use normal_program::{BodyOf, Normal, NormalRule, Part, literal_of};
use std::alloc::Global;

/// Adds the clauses for the parts of a set. After want of memory the store has the first of them.
pub fn complete_within(
    alloc: Global,
    normal: &Normal,
    set: &Set,
    store: &mut Store,
) -> Result<(), NoMemory>
    requires normal { IsNormal normal.now }
    requires set { IsSetOver normal.now.atoms set.now }
    ensures added { OnOk result (store.new ≡ store.old ++ inner_clauses normal.now set.now) }
    ensures some { OnErr result
        (GainsFirst store.old store.new (inner_clauses normal.now set.now)) }

    // After want of memory too, each trail of the store stays one.
    ensures trails { KeepsTrails store.old store.new }

    // The variables of these clauses are those of atoms and bodies.
    ensures over { AreOver (greatest_body_var normal.now) (inner_clauses normal.now set.now) }

    // They speak of the proper parts of the set that keep the rules of the reduct by it.
    ensures hold { HoldWithin normal.now set.now }
    ensures make { MakeSmaller normal.now set.now }
{
    let mut draft = Draft::open(alloc);
    add_within(normal, set.as_slice(), &mut draft, store)
}

// All clauses for the parts of a set.
fn add_within(normal: &Normal, set: &[bool], draft: &mut Draft, store: &mut Store) -> Added
    requires { IsInRange normal.now }
    ensures { Adds result store.old store.new (inner_clauses normal.now set.now) }
{
    add_kept_rules(normal, set, draft, store)?;
    add_choices(normal, set, draft, store)
}

// Those of atoms, of bodies, and of rules that aren't choice rules.
fn add_kept_rules(normal: &Normal, set: &[bool], draft: &mut Draft, store: &mut Store) -> Added
    requires { IsInRange normal.now }
    ensures { Adds result store.old store.new (cleaned
        (map (λ atom. alone (negative atom)) (atoms_outside normal.now set.now)
        ++ map negative (atoms_in normal.now set.now) ∷ []
        ++ flat_map (inner_body_clauses normal.now set.now) (numbered_bodies normal.now)
        ++ flat_map (rule_clauses normal.now) normal.now.rules)) }
{
    add_atoms_and_bodies(normal, set, draft, store)?;
    add_rules(normal, draft, store)
}

// Those of atoms and of bodies.
fn add_atoms_and_bodies(
    normal: &Normal,
    set: &[bool],
    draft: &mut Draft,
    store: &mut Store,
) -> Added
    requires { IsInRange normal.now }
    ensures { Adds result store.old store.new (cleaned
        (map (λ atom. alone (negative atom)) (atoms_outside normal.now set.now)
        ++ map negative (atoms_in normal.now set.now) ∷ []
        ++ flat_map (inner_body_clauses normal.now set.now) (numbered_bodies normal.now))) }
{
    add_atoms(normal, set, draft, store)?;
    add_inner_bodies(normal, set, draft, store)
}

// Those of atoms: a part has none outside the set, and not all in it.
fn add_atoms(normal: &Normal, set: &[bool], draft: &mut Draft, store: &mut Store) -> Added
    requires { IsInRange normal.now }
    ensures { Adds result store.old store.new (cleaned
        (map (λ atom. alone (negative atom)) (atoms_outside normal.now set.now)
        ++ map negative (atoms_in normal.now set.now) ∷ [])) }
{
    add_outside(normal, set, draft, store)?;
    add_not_all(normal, set, draft, store)
}

// The atoms outside the set are false.
fn add_outside(normal: &Normal, set: &[bool], draft: &mut Draft, store: &mut Store) -> Added
    requires { IsInRange normal.now }
    ensures { Adds result store.old store.new
        (cleaned (map (λ atom. alone (negative atom)) (atoms_outside normal.now set.now))) }
{
    for atom in 1..normal.atoms + 1 {
        add_if_outside(set, draft, store, atom)?;
    }
    Ok(())
}

// An atom is false, if it is outside the set.
fn add_if_outside(set: &[bool], draft: &mut Draft, store: &mut Store, atom: u32) -> Added
    requires { IsVar atom }
    ensures { Adds result store.old store.new (cleaned
        (if not (has set.now atom) then alone (negative atom) ∷ [] else [])) }
{
    if is_in(set, atom) {
        return Ok(());
    }
    add_alone(draft, store, Var(atom).negative())
}

// Whether an atom is in the set.
fn is_in(set: &[bool], atom: u32) -> bool
    ensures { result ≡ has set.now atom }
{
    set.get(atom as usize).copied().unwrap_or(false)
}

// Some atom of the set is false.
fn add_not_all(normal: &Normal, set: &[bool], draft: &mut Draft, store: &mut Store) -> Added
    requires { IsInRange normal.now }
    ensures { Adds result store.old store.new
        (cleaned (map negative (atoms_in normal.now set.now) ∷ [])) }
{
    draft.begin();
    for atom in 1..normal.atoms + 1 {
        push_if_in(draft, set, atom)?;
    }
    draft.add_to(store)
}

// Puts the negation of an atom last, if the atom is in the set.
fn push_if_in(draft: &mut Draft, set: &[bool], atom: u32) -> Result<(), NoMemory>
    requires { IsVar atom }
    ensures { OnOk result
        (draft.new ≡ (if has set.now atom then with_lit draft.old (negative atom) else draft.old)) }
{
    if !is_in(set, atom) {
        return Ok(());
    }
    draft.push(Var(atom).negative())
}

// What conjunctive bodies mean in the parts of the set.
fn add_inner_bodies(normal: &Normal, set: &[bool], draft: &mut Draft, store: &mut Store) -> Added
    requires { IsInRange normal.now }
    ensures { Adds result store.old store.new (cleaned
        (flat_map (inner_body_clauses normal.now set.now) (numbered_bodies normal.now))) }
{
    let mut lits = Vec::new(draft.allocator());
    for (number, body) in normal.bodies.as_slice().iter().enumerate() {
        let var = Var(normal.atoms + 1 + number as u32);
        add_inner_body(&mut lits, draft, store, var, set, body)?;
    }
    Ok(())
}

// What a body means there, if it is conjunctive. The literals are made in `lits`.
fn add_inner_body(
    lits: &mut Vec<Lit>,
    draft: &mut Draft,
    store: &mut Store,
    var: Var,
    set: &[bool],
    body: &BodyOf,
) -> Added
    requires var { IsVar var.0 }
    requires parts { All (λ part. IsVar part.lit.atom) body.now.parts }
    ensures { Adds result store.old store.new (cleaned
        (if not (is_conjunctive body.now) then []
        else if is_blocked set.now body.now then alone (negative var.0) ∷ []
        else all_clauses var.0 (literals_of (positive_parts body.now)))) }
{
    if !body.is_conjunctive() {
        return Ok(());
    }
    if is_blocked_by(set, body) {
        return add_alone(draft, store, var.negative());
    }
    read_positives(lits, body.parts.as_slice())?;
    define(draft, store, var, lits.as_slice())
}

// Whether a body has a negative literal whose atom is in the set.
fn is_blocked_by(set: &[bool], body: &BodyOf) -> bool
    ensures { result ≡ is_blocked set.now body.now }
{
    for part in body.parts.as_slice() {
        if part.lit.negated && is_in(set, part.lit.atom) {
            return true;
        }
    }
    false
}

// Makes the positive literals of a body.
fn read_positives(lits: &mut Vec<Lit>, parts: &[Part]) -> Result<(), NoMemory>
    requires { All (λ part. IsVar part.lit.atom) parts.now }
    ensures { OnOk result (lits.new.items
        ≡ literals_of (filter (λ part. not part.lit.negated) parts.now)) }
{
    lits.clear();
    for part in parts {
        if !part.lit.negated {
            lits.push(literal_of(part.lit))?;
        }
    }
    Ok(())
}

// What choice rules mean in the parts of the set.
fn add_choices(normal: &Normal, set: &[bool], draft: &mut Draft, store: &mut Store) -> Added
    requires { IsInRange normal.now }
    ensures { Adds result store.old store.new
        (cleaned (flat_map (inner_choice_clauses normal.now set.now) normal.now.rules)) }
{
    for rule in normal.rules.as_slice() {
        add_choice(set, draft, store, Var(normal.atoms + 1 + rule.body), rule)?;
    }
    Ok(())
}

// What a rule means there, if it is a choice rule.
fn add_choice(
    set: &[bool],
    draft: &mut Draft,
    store: &mut Store,
    var: Var,
    rule: &NormalRule,
) -> Added
    requires var { IsVar var.0 }
    requires heads { All IsVar rule.now.heads }
    ensures { Adds result store.old store.new (cleaned
        (if is_choice rule.now.kind
        then map (λ head. negative var.0 ∷ positive head ∷ [])
        (filter (has set.now) rule.now.heads)
        else [])) }
{
    if !is_choice_rule(rule) {
        return Ok(());
    }
    add_chosen(set, draft, store, var, rule.heads.as_slice())
}

// Where the variable is true, so is each of the heads that is in the set.
fn add_chosen(set: &[bool], draft: &mut Draft, store: &mut Store, var: Var, heads: &[u32]) -> Added
    requires var { IsVar var.0 }
    requires heads { All IsVar heads.now }
    ensures { Adds result store.old store.new (cleaned
        (map (λ head. negative var.0 ∷ positive head ∷ []) (filter (has set.now) heads.now))) }
{
    for head in heads {
        add_if_chosen(set, draft, store, var, *head)?;
    }
    Ok(())
}

// Where the variable is true, so is the head, if it is in the set.
fn add_if_chosen(set: &[bool], draft: &mut Draft, store: &mut Store, var: Var, head: u32) -> Added
    requires var { IsVar var.0 }
    requires head { IsVar head }
    ensures { Adds result store.old store.new (cleaned
        (if has set.now head then (negative var.0 ∷ positive head ∷ []) ∷ [] else [])) }
{
    if !is_in(set, head) {
        return Ok(());
    }
    add_two(draft, store, var.negative(), Var(head).positive())
}
