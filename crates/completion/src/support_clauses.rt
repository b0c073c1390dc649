// The support of atoms: where an atom is true, the body of some rule for it is.
ghost use Rattle.std.specs.Prelude.{◌≡◌, ◌≤◌, ◌<◌, ◌+◌, [], ◌∷◌, length, map, replicate, All};
ghost use Rattle.std.specs.Prelude.{IfOk, OnOk};
ghost use Rattle.clause_store.specs.Clause.{variable};
ghost use Rattle.normal_program.specs.Clauses.{positive, negative, support_clause, atoms_of_normal};
ghost use Rattle.normal_program.specs.Clauses.{cleaned};
ghost use Rattle.normal_program.specs.Range.{IsInRange};
ghost use Rattle.completion.specs.Filling.{Adds, IsVar, supports_of};
ghost use Rattle.completion.specs.Chains.{note_of, IsChain, HasChain, AreSupports, Puts};
ghost use Rattle.completion.specs.Chains.{NotesAll};

use crate::draft::{Added, Draft};
use clause_store::{Lit, Store, Var};
use item_list::NoMemory;
use normal_program::{Normal, NormalRule};
use std::alloc::Global;

/// The body of a rule for an atom, and the number of the note before it for the same atom. Notes
/// are numbered from 1 on, and 0 is none.
#[derive(Drop, Clone, Copy)]
struct Note {
    body: Lit,
    before: usize,
}

/// The bodies of the rules for each atom: the number of the atom's last note leads back to the
/// others.
#[derive(Drop)]
struct Supports {
    notes: Vec<Note>,
    lasts: Vec<usize>,
}

/// Adds the support clause of each atom.
pub fn add_supports(normal: &Normal, draft: &mut Draft, store: &mut Store) -> Added
    requires { IsInRange normal.now }
    ensures { Adds result store.old store.new
        (cleaned (map (support_clause normal.now) (atoms_of_normal normal.now))) }
{
    let supports = gather(draft.allocator(), normal)?;
    let mut bodies = Vec::new(draft.allocator());
    for atom in 1..normal.atoms + 1 {
        add_support_of(normal, &supports, draft, store, &mut bodies, atom)?;
    }
    Ok(())
}

// The support clause of an atom. Its bodies are read into `bodies`.
fn add_support_of(
    normal: &Normal,
    supports: &Supports,
    draft: &mut Draft,
    store: &mut Store,
    bodies: &mut Vec<Lit>,
    atom: u32,
) -> Added
    requires supports { AreSupports normal.now normal.now.rules supports.now }
    requires var { IsVar atom }
    requires last { atom ≤ normal.now.atoms }
    ensures { Adds result store.old store.new (cleaned (support_clause normal.now atom ∷ [])) }
{
    read_bodies(normal, supports, bodies, atom)?;
    add_support(draft, store, atom, bodies.as_slice())
}

// The clause of an atom and the bodies of its rules.
fn add_support(draft: &mut Draft, store: &mut Store, atom: u32, bodies: &[Lit]) -> Added
    requires atom { IsVar atom }
    requires bodies { All (λ lit. 1 ≤ variable lit) bodies.now }
    ensures { Adds result store.old store.new (cleaned ((negative atom ∷ bodies.now) ∷ [])) }
{
    draft.start(Var(atom).negative())?;
    for body in bodies {
        draft.push(*body)?;
    }
    draft.add_to(store)
}

// Reads the bodies of the rules for an atom.
fn read_bodies(
    normal: &Normal,
    supports: &Supports,
    bodies: &mut Vec<Lit>,
    atom: u32,
) -> Result<(), NoMemory>
    requires supports { AreSupports normal.now normal.now.rules supports.now }
    requires last { atom ≤ normal.now.atoms }
    ensures { OnOk result (bodies.new.items ≡ supports_of normal.now normal.now.rules atom) }
{
    let last = supports.lasts[atom as usize];
    read_back(bodies, supports.notes.as_slice(), last)?;
    bodies.reverse();
    Ok(())
}

// Reads a chain of notes, from its last one back.
fn read_back(lits: &mut Vec<Lit>, notes: &[Note], last: usize) -> Result<(), NoMemory>
    requires { HasChain notes.now last }
    ensures { OnOk result (IsChain notes.now last lits.new.items) }
{
    lits.clear();
    let mut number = last;
    while number != 0 {
        let note = note_at(notes, number);
        lits.push(note.body)?;
        number = note.before;
    }
    Ok(())
}

// The note of a number.
fn note_at(notes: &[Note], number: usize) -> Note
    requires first { 1 ≤ number }
    requires last { number ≤ length notes.now }
    ensures { result ≡ note_of notes.now number }
{
    notes[number - 1]
}

// Notes for each atom the bodies of its rules, in the order of the rules.
fn gather(alloc: Global, normal: &Normal) -> Result<Supports, NoMemory>
    requires { IsInRange normal.now }
    ensures { IfOk result (AreSupports normal.now normal.now.rules) }
{
    let mut supports = no_notes(alloc, normal.atoms)?;
    for rule in normal.rules.as_slice() {
        let var = Var(normal.atoms + 1 + rule.body);
        note_all(&mut supports, rule, var.positive())?;
    }
    Ok(supports)
}

// No notes for so many atoms and for 0.
fn no_notes(alloc: Global, atoms: u32) -> Result<Supports, NoMemory>
    ensures { IfOk result (λ supports. supports.lasts.items ≡ replicate (atoms + 1) 0) }
{
    let lasts = vec![in alloc; 0; atoms as usize + 1]?;
    Ok(Supports {
        notes: Vec::new(alloc),
        lasts,
    })
}

// Notes a literal for all heads of a rule.
fn note_all(supports: &mut Supports, rule: &NormalRule, body: Lit) -> Result<(), NoMemory>
    requires { All (λ head. head < length supports.old.lasts.items) rule.now.heads }
    ensures { OnOk result (NotesAll rule.now.heads body supports.old supports.new) }
{
    for head in rule.heads.as_slice() {
        put(supports, *head as usize, body)?;
    }
    Ok(())
}

// Notes a literal for one atom.
fn put(supports: &mut Supports, atom: usize, body: Lit) -> Result<(), NoMemory>
    requires { atom < length supports.old.lasts.items }
    ensures { OnOk result (Puts atom body supports.old supports.new) }
{
    let before = supports.lasts[atom];
    supports.notes.push(Note { body, before })?;
    supports.lasts[atom] = supports.notes.len();
    Ok(())
}
