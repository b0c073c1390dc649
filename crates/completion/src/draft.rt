// A clause while it is built. A table with a mark for each literal tells which ones it has, and
// only their marks are taken away for the next clause. So a clause costs time for its literals.
ghost use Rattle.std.specs.Prelude.{◌≡◌, ◌≤◌, ◌<◌, [], ◌∷◌, ℕ, All, OnOk, vec_len};
ghost use Rattle.clause_store.specs.Clause.{variable};
ghost use Rattle.normal_program.specs.Clauses.{is_tautology};
ghost use Rattle.completion.specs.Filling.{Adds};
ghost use Rattle.completion.specs.Drafts.{is_marked, IsDraft, Unmarks, with_lit, finished};

use clause_store::{Lit, Store};
use item_list::NoMemory;
use std::alloc::Global;
use std::marker::Model;

/// What a call gives that adds clauses to a store.
pub type Added = Result<(), NoMemory>;

/// A clause that grows literal by literal, each once.
#[derive(Debug, Drop)]
pub struct Draft {
    alloc: Global,
    marks: Vec<bool>,
    lits: Vec<Lit>,
}

impl Model for Draft {
    ghost use Rattle.std.specs.Prelude.{List};
    ghost use Rattle.clause_store.specs.declared.literal.Lit.{Lit};
    ghost use Rattle.completion.specs.Drafts.{IsDraft};

    ghost Value = { List Lit };

    ghost view = { λ draft. draft.lits.items };

    ghost invariant = { λ draft. IsDraft draft.marks.items draft.lits.items };
}

impl Draft {
    /// The clause with no literal. It takes no memory.
    pub fn open(alloc: Global) -> Draft
        ensures { result ≡ [] }
    {
        Draft {
            alloc,
            marks: Vec::new(alloc),
            lits: Vec::new(alloc),
        }
    }

    /// The allocator that the draft was opened with.
    pub fn allocator(&self) -> Global {
        self.alloc
    }

    /// Begins a new clause.
    pub fn begin(&mut self)
        ensures { self.new ≡ [] }
    {
        unmark(&mut self.marks, &mut self.lits);
    }

    /// Begins a new clause with this literal.
    pub fn start(&mut self, lit: Lit) -> Result<(), NoMemory>
        requires { 1 ≤ variable lit }
        ensures { OnOk result (self.new ≡ lit ∷ []) }
    {
        self.begin();
        self.push(lit)
    }

    /// Puts a literal last, unless the clause has it.
    pub fn push(&mut self, lit: Lit) -> Result<(), NoMemory>
        requires { 1 ≤ variable lit }
        ensures { OnOk result (self.new ≡ with_lit self.old lit) }
    {
        push_once(&mut self.marks, &mut self.lits, lit)
    }

    /// Adds the clause to a store, unless it has a literal and its negation.
    pub fn add_to(&self, store: &mut Store) -> Added
        ensures { Adds result store.old store.new (finished self.now) }
    {
        add_finished(
            self.alloc,
            store,
            self.marks.as_slice(),
            self.lits.as_slice(),
        )
    }
}

// Takes all literals out, and their marks away.
fn unmark(marks: &mut Vec<bool>, lits: &mut Vec<Lit>)
    requires { IsDraft marks.old.items lits.old.items }
    ensures draft { IsDraft marks.new.items lits.new.items }
    ensures none { lits.new.items ≡ [] }
{
    unmark_each(marks, lits.as_slice());
    lits.clear();
}

// Takes the marks of literals away.
fn unmark_each(marks: &mut Vec<bool>, lits: &[Lit])
    requires { All (λ lit. lit.0 < vec_len marks.old) lits.now }
    ensures { Unmarks marks.old.items marks.new.items lits.now }
{
    for lit in lits {
        marks[lit.0 as usize] = false;
    }
}

// Puts a literal last and marks it, unless it is there.
fn push_once(marks: &mut Vec<bool>, lits: &mut Vec<Lit>, lit: Lit) -> Result<(), NoMemory>
    requires draft { IsDraft marks.old.items lits.old.items }
    requires no_zero { 1 ≤ variable lit }
    ensures draft { IsDraft marks.new.items lits.new.items }
    ensures ok { OnOk result (lits.new.items ≡ with_lit lits.old.items lit) }
{
    if has_mark(marks.as_slice(), lit) {
        return Ok(());
    }
    make_room(marks, lit)?;
    lits.push(lit)?;
    marks[lit.0 as usize] = true;
    Ok(())
}

// Whether a literal is marked.
fn has_mark(marks: &[bool], lit: Lit) -> bool
    ensures { result ≡ is_marked marks.now lit.0 }
{
    marks.get(lit.0 as usize).copied().unwrap_or(false)
}

// Makes the table long enough for a literal.
fn make_room(marks: &mut Vec<bool>, lit: Lit) -> Result<(), NoMemory>
    ensures room { OnOk result (lit.0 < vec_len marks.new) }
    ensures same { (code : ℕ) → is_marked marks.new.items code ≡ is_marked marks.old.items code }
{
    let count = lit.0 as usize + 1;
    while marks.len() < count {
        marks.push(false)?;
    }
    Ok(())
}

// Adds a clause to a store, unless it has a literal and its negation.
fn add_finished(alloc: Global, store: &mut Store, marks: &[bool], lits: &[Lit]) -> Added
    requires { IsDraft marks.now lits.now }
    ensures { Adds result store.old store.new (finished lits.now) }
{
    if has_opposites(marks, lits) {
        return Ok(());
    }
    store.add(alloc, lits)?;
    Ok(())
}

// Whether a clause has a literal and its negation.
fn has_opposites(marks: &[bool], lits: &[Lit]) -> bool
    requires { IsDraft marks.now lits.now }
    ensures { result ≡ is_tautology lits.now }
{
    for lit in lits {
        if has_mark(marks, lit.negated()) {
            return true;
        }
    }
    false
}
