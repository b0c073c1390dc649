// Two testers of one normal form. The first is opened afresh.
ghost use Rattle.std.specs.Prelude.{◌≡◌, IfSome};
ghost use Rattle.clause_store.specs.Clause.{IsOver};
ghost use Rattle.normal_program.specs.Limit.{IsNormal};
ghost use Rattle.normal_program.specs.Normal.{greatest_body_var};

use crate::trials::answering::{answer, completed_of};
use clause_store::Lit;
use coherence_test::{Tested, Tester};
use item_list::NoMemory;
use normal_program::Normal;
use std::alloc::Global;
use std::marker::Model;

/// A normal form, and two testers of it.
#[derive(Drop)]
pub struct TwoTesters<'a> {
    pub normal: &'a Normal,
    first: Tester<'a>,
    second: Tester<'a>,
}

impl<'a> Model for TwoTesters<'a> {
    ghost use Rattle.std.specs.Prelude.{◌≡◌};
    ghost use Rattle.normal_program.specs.declared.normal.Normal.{Normal};
    ghost use Rattle.normal_program.specs.Limit.{IsNormal};

    ghost Value = { Normal };

    ghost view = { λ it. it.normal.now };

    ghost invariant = { λ it. IsNormal it.normal.now
        × (it.first.normal ≡ it.normal.now) × (it.second.normal ≡ it.normal.now) };
}

impl<'a> TwoTesters<'a> {
    /// The first is opened afresh, and the second over a completed store.
    pub fn open(alloc: Global, normal: &'a Normal) -> Result<TwoTesters<'a>, NoMemory>
        requires { IsNormal normal.now }
    {
        let completed = completed_of(alloc, normal)?;
        let first = Tester::open(alloc, normal)?;
        let second = Tester::open_over(alloc, normal, &completed)?;
        Ok(TwoTesters {
            normal,
            first,
            second,
        })
    }

    /// Opens the second anew, after the first.
    pub fn follow(&mut self, alloc: Global) -> Result<(), NoMemory>
        ensures { self.new ≡ self.old }
    {
        let completed = completed_of(alloc, self.normal)?;
        self.second = Tester::open_after(alloc, &completed, &self.first)?;
        Ok(())
    }

    /// Tells the second what to decide first.
    pub fn prefer(&mut self, lits: &[Lit])
        ensures { self.new ≡ self.old }
    {
        self.second.prefer(lits);
    }

    /// What both answer where a literal is assumed.
    pub fn answers(&mut self, alloc: Global, lit: Lit) -> Result<(Tested, Tested), NoMemory>
        requires { IsOver (greatest_body_var self.old) lit }
        ensures { self.new ≡ self.old }
    {
        let one = answer(alloc, &mut self.first, lit)?;
        let two = answer(alloc, &mut self.second, lit)?;
        Ok((one, two))
    }

    /// The literal of a code, where it is one of an atom or a body.
    pub fn literal(&self, code: u32) -> Option<Lit>
        ensures { IfSome result (IsOver (greatest_body_var self.now)) }
    {
        let lit = Lit(code);
        let var = lit.var().0;
        if 1 <= var && var <= self.normal.greatest_body_var() {
            Some(lit)
        } else {
            None
        }
    }
}
