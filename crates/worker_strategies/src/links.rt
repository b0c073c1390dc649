// Which candidates have which test literal, so that those of one literal are found at once.
ghost use Rattle.std.specs.Prelude.{◌≡◌, ◌≢◌, ◌+◌, IfOk, slice_index_or, slice_set};
ghost use Rattle.ground_program.specs.Bounds.{IsCandidate};
ghost use Rattle.normal_program.specs.Limit.{IsNormal};
ghost use Rattle.worker_strategies.specs.Links.{AreBelow, AreLinked, HasCode, IsNext};

use clause_store::Lit;
use ground_program::Mode;
use item_list::NoMemory;
use normal_program::{Normal, normal_form_is_in_range};
use std::alloc::Global;
use std::marker::Model;
use worker_jobs::test_literal;

/// For each literal the greatest candidate that has it as its test literal, and from each
/// candidate the next smaller one with the same test literal. Number 0 is none.
#[derive(Drop)]
pub(crate) struct Links<'a> {
    normal: &'a Normal,
    mode: Mode,
    /// By the code of a literal of an atom.
    greatest: Vec<u32>,
    /// By the number of a candidate.
    smaller: Vec<u32>,
}

impl<'a> Model for Links<'a> {
    ghost use Rattle.worker_strategies.specs.Links.{AreLinked, Linked};

    ghost Value = { Linked };

    ghost view = { λ it. record { normal = it.normal.now; mode = it.mode } };

    ghost invariant = { λ it.
        AreLinked it.normal.now.names it.mode it.greatest.items it.smaller.items };
}

impl<'a> Links<'a> {
    /// The candidates of a normal form.
    pub(crate) fn open(alloc: Global, normal: &'a Normal, mode: Mode) -> Result<Links<'a>, NoMemory>
        requires { IsNormal normal.now }
        ensures { IfOk result (λ it. it ≡ record { normal = normal.now; mode = mode }) }
    {
        normal_form_is_in_range();
        let codes = 2 * normal.atoms as usize + 2;
        let mut greatest = vec![in alloc; 0; codes]?;
        let mut smaller = vec![in alloc; 0; normal.names.len() + 1]?;
        for place in 0..normal.names.len() as u32 {
            let cand = place + 1;
            link(normal, mode, &mut greatest, &mut smaller, cand);
        }
        Ok(Links {
            normal,
            mode,
            greatest,
            smaller,
        })
    }

    /// The greatest candidate of a literal, or 0.
    pub(crate) fn greatest_of(&self, lit: Lit) -> u32
        ensures { result ≢ 0 → HasCode self.now.normal.names self.now.mode lit.0 result }
    {
        number_at(&self.greatest, lit.0)
    }

    /// The next smaller candidate of the same literal, or 0.
    pub(crate) fn smaller_than(&self, cand: u32) -> u32
        ensures { result ≢ 0 → IsNext self.now.normal.names self.now.mode cand result }
    {
        number_at(&self.smaller, cand)
    }
}

/// Links a candidate that is greater than those so far.
fn link(normal: &Normal, mode: Mode, greatest: &mut Vec<u32>, smaller: &mut Vec<u32>, cand: u32)
    requires normal { IsNormal normal.now }
    requires candidate { IsCandidate normal.now.names cand }
    requires below { AreBelow greatest.old.items cand }
    requires linked { AreLinked normal.now.names mode greatest.old.items smaller.old.items }
    ensures linked { AreLinked normal.now.names mode greatest.new.items smaller.new.items }
    ensures below { AreBelow greatest.new.items (cand + 1) }
{
    let code = test_literal(normal, mode, cand).0;
    let next = number_at(greatest, code);
    put(smaller, cand, next);
    put(greatest, code, cand);
}

/// The number at a place. Past the end it is 0.
fn number_at(numbers: &[u32], at: u32) -> u32
    ensures { result ≡ slice_index_or numbers.now at 0 }
{
    numbers.get(at as usize).copied().unwrap_or(0)
}

/// Puts a number at a place. Past the end nothing is put.
fn put(numbers: &mut Vec<u32>, at: u32, number: u32)
    ensures { numbers.new.items ≡ slice_set numbers.old.items at number }
{
    let at = at as usize;
    if at < numbers.len() {
        numbers[at] = number;
    }
}
