// What a body gives on a trail, by its sums.
ghost use Rattle.std.specs.Prelude.{◌≡◌, ◌≤◌, ◌<◌, All, Any, IfOk, IfNone, IfSome};
ghost use Rattle.clause_store.specs.declared.literal.Value.TheVariants.{Unset};
ghost use Rattle.clause_store.specs.Trail.{value_of};
ghost use Rattle.weight_propagator.specs.Rows.{IsRow, IsCase, IsCause, IsGivenBy, IsLooked};
ghost use Rattle.weight_propagator.specs.Rows.{yes_sum};
ghost use Rattle.weight_propagator.specs.Rows.{not_no_sum};

use crate::reason::collect;
use crate::row::Row;
use crate::side::Side;
use clause_store::{Clause, Lit, Says, Trail, Value};
use item_list::NoMemory;
use std::alloc::Global;

/// What the literals of a body weigh on a trail.
#[derive(Debug, Drop, Clone, Copy)]
pub struct Sums {
    /// The true ones.
    pub yes: u64,
    /// Those that aren't false.
    pub possible: u64,
}

/// What is found of a body.
#[derive(Debug, Drop, Clone, Copy)]
pub enum Case {
    /// It gives no clause.
    Nothing,
    /// It gives one, for what one side shows together with an unset literal, where there is one.
    Cause(Side, Option<Lit>),
}

impl Row {
    /// Writes the clause that the body gives, by its sums, where it gives one.
    pub fn look(
        &self,
        alloc: Global,
        sums: Sums,
        trail: &Trail,
        out: &mut Clause,
    ) -> Result<Says, NoMemory>
        requires row { IsRow trail.now.vars self.now }
        requires yes { sums.yes ≡ yes_sum trail.now.steps self.now.terms }
        requires possible { sums.possible ≡ not_no_sum trail.now.steps self.now.terms }
        ensures { IfOk result (IsLooked self.now trail.now out.new) }
    {
        match self.case(sums, trail) {
            Case::Nothing => Ok(Says::Quiet),
            Case::Cause(side, extra) => {
                self.write(alloc, side, extra, trail, out)?;
                Ok(Says::Clause)
            }
        }
    }

    // Writes the clause that the body gives for this cause.
    fn write(
        &self,
        alloc: Global,
        side: Side,
        extra: Option<Lit>,
        trail: &Trail,
        out: &mut Clause,
    ) -> Result<(), NoMemory>
        requires row { IsRow trail.now.vars self.now }
        requires cause { IsCause trail.now.steps self.now side extra }
        ensures { IfOk result (λ _. IsGivenBy self.now trail.now out.new) }
    {
        out.clear();
        out.push(alloc, self.head(side))?;
        collect(alloc, self, trail, side, extra, out)?;
        Ok(())
    }

    /// Whether the body gives a clause, and for which cause.
    pub fn case(&self, sums: Sums, trail: &Trail) -> Case
        requires row { IsRow trail.now.vars self.now }
        requires yes { sums.yes ≡ yes_sum trail.now.steps self.now.terms }
        requires possible { sums.possible ≡ not_no_sum trail.now.steps self.now.terms }
        ensures { IsCase trail.now.steps self.now result }
    {
        let reached = sums.yes >= self.bound;
        let missed = sums.possible < self.bound;
        match trail.value(self.var.positive()) {
            Value::Yes => {
                if missed {
                    return Case::Cause(Side::Missed, None);
                }
                match self.unset_of(trail, sums.possible - self.bound + 1) {
                    None => Case::Nothing,
                    Some(lit) => Case::Cause(Side::Missed, Some(lit)),
                }
            }
            Value::No => {
                if reached {
                    return Case::Cause(Side::Reached, None);
                }
                match self.unset_of(trail, self.bound - sums.yes) {
                    None => Case::Nothing,
                    Some(lit) => Case::Cause(Side::Reached, Some(lit)),
                }
            }
            Value::Unset => {
                if reached {
                    Case::Cause(Side::Reached, None)
                } else if missed {
                    Case::Cause(Side::Missed, None)
                } else {
                    Case::Nothing
                }
            }
        }
    }

    // The unset literal of greatest weight, where that is at least so much. Behind a literal that
    // weighs less none is looked at.
    fn unset_of(&self, trail: &Trail, least: u64) -> Option<Lit>
        requires { IsRow trail.now.vars self.now }
        ensures none { IfNone result (All
            (λ term. value_of trail.now.steps term.lit ≡ Unset → term.weight < least)
            self.now.terms) }
        ensures some { IfSome result (λ lit. value_of trail.now.steps lit ≡ Unset) }
        ensures weight { IfSome result (λ lit. Any
            (λ term. (term.lit ≡ lit) × (least ≤ term.weight)) self.now.terms) }
    {
        for term in self.terms.as_slice() {
            if term.weight < least {
                return None;
            }
            if let Value::Unset = trail.value(term.lit) {
                return Some(term.lit);
            }
        }
        None
    }
}
