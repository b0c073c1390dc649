// Asks for an answer set, and then for one that lacks a named atom, until each is settled.
ghost use Rattle.std.specs.Prelude.{◌≡◌, ◌≤◌, All};
ghost use Rattle.clause_store.specs.Clause.{IsOver};
ghost use Rattle.normal_program.specs.Limit.{IsNormal};
ghost use Rattle.normal_program.specs.Loop.{IsAtomOf};
ghost use Rattle.normal_program.specs.Normal.{greatest_body_var};

use clause_store::{Budget, Clause, Lit, Var};
use coherence_test::{Asked, Core, Tested, Tester};
use ground_program::{Set, has_atom};
use item_list::NoMemory;
use normal_program::{Normal, normal_form_is_in_range};
use std::alloc::Global;
use std::marker::Model;

/// What was answered.
#[derive(Debug, Drop, Clone, Copy)]
pub struct Counts {
    /// How many questions found an answer set.
    pub found: u32,
    /// How many had a core.
    pub cores: u32,
    /// How many clauses they counted together.
    pub counted: u64,
    /// How many used up their budget.
    pub spent: u32,
    /// How many used it up in the test of one answer set.
    pub inside: u32,
}

/// A tester, and the named atoms that no question settled yet.
#[derive(Drop)]
pub struct Asking<'a> {
    normal: &'a Normal,
    tester: Tester<'a>,
    left: Vec<u32>,
    counts: Counts,
}

impl<'a> Model for Asking<'a> {
    ghost use Rattle.std.specs.Prelude.{◌≡◌};
    ghost use Rattle.normal_program.specs.declared.normal.Normal.{Normal};
    ghost use Rattle.normal_program.specs.Limit.{IsNormal};

    ghost Value = { Normal };

    ghost view = { λ it. it.normal.now };

    ghost invariant = { λ it. IsNormal it.normal.now × (it.tester.normal ≡ it.normal.now) };
}

impl<'a> Asking<'a> {
    /// A tester of a normal form, which nothing was asked.
    pub fn open(alloc: Global, normal: &'a Normal) -> Result<Asking<'a>, NoMemory>
        requires { IsNormal normal.now }
    {
        let left = named_atoms(alloc, normal)?;
        let tester = Tester::open(alloc, normal)?;
        let counts = Counts {
            found: 0,
            cores: 0,
            counted: 0,
            spent: 0,
            inside: 0,
        };
        Ok(Asking {
            normal,
            tester,
            left,
            counts,
        })
    }

    /// What was answered, where each question may count `limit` clauses. At 0 nothing is asked.
    pub fn run(&mut self, alloc: Global, limit: u32) -> Result<Counts, NoMemory> {
        if limit > 0 {
            self.ask_all(alloc, limit)?;
        }
        Ok(self.counts)
    }

    // Asks for any answer set, and then for one without each atom that isn't settled.
    fn ask_all(&mut self, alloc: Global, limit: u32) -> Result<(), NoMemory>
        requires { 1 ≤ limit }
    {
        self.ask(alloc, Clause::open(), limit)?;
        for _ in 0..self.left.len() {
            match self.left.pop() {
                Some(atom) if 1 <= atom && atom <= self.normal.atoms => {
                    self.ask_without(alloc, atom, limit)?;
                }
                Some(_) => {}
                None => return Ok(()),
            }
        }
        Ok(())
    }

    // Asks for an answer set that lacks an atom.
    fn ask_without(&mut self, alloc: Global, atom: u32, limit: u32) -> Result<(), NoMemory>
        requires atom { IsAtomOf self.old atom }
        requires some { 1 ≤ limit }
        ensures { self.new ≡ self.old }
    {
        let _ = &self.normal;
        normal_form_is_in_range();
        let mut without = Clause::open();
        without.push(alloc, Var(atom).negative())?;
        self.ask(alloc, without, limit)
    }

    // Asks for an answer set that makes these literals true.
    fn ask(&mut self, alloc: Global, assume: Clause, limit: u32) -> Result<(), NoMemory>
        requires over { All (IsOver (greatest_body_var self.old)) assume }
        requires some { 1 ≤ limit }
        ensures { self.new ≡ self.old }
    {
        let asked = Asked { assume, any: None };
        let mut budget = Budget::new(limit);
        let tested = self.tester.test(alloc, &asked, &mut budget, limit);
        let counted = u64::from(budget.used());
        self.counts.counted = self.counts.counted.saturating_add(counted);
        self.note(&tested)
    }

    // Counts an answer, and settles the atoms that it settles.
    fn note(&mut self, tested: &Tested) -> Result<(), NoMemory>
        ensures { self.new ≡ self.old }
    {
        match tested {
            Tested::Found(set) => self.note_found(set),
            Tested::Core(core) => self.note_core(core),
            Tested::Paused | Tested::Spent => {
                self.counts.spent = self.counts.spent.saturating_add(1);
            }
            Tested::SpentInside { .. } => {
                self.counts.inside = self.counts.inside.saturating_add(1);
            }
            Tested::NoMemory => return Err(NoMemory),
        }
        Ok(())
    }

    // An answer set settles the atoms that it lacks.
    fn note_found(&mut self, set: &Set)
        ensures { self.new ≡ self.old }
    {
        self.counts.found = self.counts.found.saturating_add(1);
        self.left.retain(|atom| has_atom(set.as_slice(), *atom));
    }

    // A core without literals says that there is no answer set, which settles all.
    fn note_core(&mut self, core: &Core)
        ensures { self.new ≡ self.old }
    {
        self.counts.cores = self.counts.cores.saturating_add(1);
        if core.lits.len() == 0 {
            self.left.clear();
        }
    }
}

// The atoms that have names, in the order of these.
fn named_atoms(alloc: Global, normal: &Normal) -> Result<Vec<u32>, NoMemory> {
    let mut atoms = Vec::new(alloc);
    for named in normal.names.as_slice() {
        atoms.push(named.atom)?;
    }
    Ok(atoms)
}
