ghost use Rattle.std.specs.Prelude.{◌≡◌, ◌<◌, ◌^◌, false, true, length, replicate, count_by, IfOk};

use crate::Bits;
use item_list::{Copied, NoMemory};
use std::alloc::Global;

/// Two bounds on the consequences, with a truth value for each candidate.
#[derive(Debug, Drop)]
pub struct Pair {
    /// Candidates that are known to be consequences.
    pub lower: Bits,
    /// Candidates that aren't known to be none.
    pub upper: Bits,
}

impl Pair {
    /// The pair that says nothing yet: the lower bound has no candidate and the upper bound all.
    pub fn open(alloc: Global, candidates: u32) -> Result<Pair, NoMemory>
        ensures lower { IfOk result (λ pair. pair.lower ≡ replicate candidates false) }
        ensures upper { IfOk result (λ pair. pair.upper ≡ replicate candidates true) }
    {
        let lower = filled(alloc, candidates, false)?;
        let upper = filled(alloc, candidates, true)?;
        Ok(Pair { lower, upper })
    }

    /// The number of candidates in the lower bound.
    pub fn lower_len(&self) -> u32
        requires { length self.now.lower < 2 ^ 32 }
        ensures { result ≡ count_by (λ bit. bit) self.now.lower }
    {
        count_true(self.lower.as_slice())
    }

    /// The number of candidates in the upper bound.
    pub fn upper_len(&self) -> u32
        requires { length self.now.upper < 2 ^ 32 }
        ensures { result ≡ count_by (λ bit. bit) self.now.upper }
    {
        count_true(self.upper.as_slice())
    }
}

impl Copied for Pair {
    fn copied(&self, alloc: Global) -> Result<Pair, NoMemory> {
        let lower = self.lower.copy(alloc)?;
        let upper = self.upper.copy(alloc)?;
        Ok(Pair { lower, upper })
    }
}

/// So many places with one value.
fn filled(alloc: Global, places: u32, value: bool) -> Result<Bits, NoMemory>
    ensures { IfOk result (λ bits. bits ≡ replicate places value) }
{
    let mut bits = Bits::open();
    for _place in 0..places {
        bits.push(alloc, value)?;
    }
    Ok(bits)
}

/// How many values are true.
fn count_true(bits: &[bool]) -> u32
    requires { length bits.now < 2 ^ 32 }
    ensures { result ≡ count_by (λ bit. bit) bits.now }
{
    bits.iter().filter(|bit| **bit).count() as u32
}
