// The heads of a rule. Most rules have one, so up to two stand in place, with no allocation.
ghost use Rattle.std.specs.Prelude.{◌≡◌, [], ◌∷◌, ◌++◌, ◌<◌, length, slice_get, Some};
ghost use Rattle.std.specs.Prelude.{IfOk, OnOk, OnErr};
ghost use Rattle.ground_program.specs.Held.{heads_held};

use item_list::{Copied, NoMemory};
use std::alloc::Global;
use std::marker::Model;

/// Where heads are kept.
#[derive(Debug, Drop)]
enum Held {
    None,
    One([u32; 1]),
    Two([u32; 2]),
    Many(Box<Vec<u32>>),
}

/// The head atoms of a rule, which contracts see as their list.
#[derive(Debug, Drop)]
pub struct Heads {
    held: Held,
}

impl Model for Heads {
    ghost use Rattle.std.specs.Prelude.{List, ℕ};

    ghost Value = { List ℕ };

    ghost use Rattle.ground_program.specs.Held.{heads_held};

    ghost view = { λ it. heads_held it.held };
}

impl Heads {
    /// No heads. They take no memory.
    pub fn open() -> Heads
        ensures { result ≡ [] }
    {
        Heads { held: Held::None }
    }

    /// One head. It takes no memory.
    pub fn one(head: u32) -> Heads
        ensures { result ≡ head ∷ [] }
    {
        Heads {
            held: Held::One([head]),
        }
    }

    /// These heads, in this order.
    pub fn from_slice(alloc: Global, heads: &[u32]) -> Result<Heads, NoMemory>
        ensures { IfOk result (λ it. it ≡ heads.now) }
    {
        let held = match heads {
            [] => Held::None,
            [one] => Held::One([*one]),
            [one, two] => Held::Two([*one, *two]),
            _ => many_of(alloc, heads)?,
        };
        Ok(Heads { held })
    }

    /// The number of heads.
    pub fn len(&self) -> usize
        ensures { result ≡ length self.now }
    {
        self.as_slice().len()
    }

    /// The head at place `at`, from 0.
    pub fn get(&self, at: usize) -> &u32
        requires { at < length self.now }
        ensures { slice_get self.now at ≡ Some result.now }
    {
        &self.as_slice()[at]
    }

    /// All heads in order.
    pub fn as_slice(&self) -> &[u32]
        ensures { result.now ≡ self.now }
    {
        match &self.held {
            Held::None => &[],
            Held::One(heads) => heads.as_slice(),
            Held::Two(heads) => heads.as_slice(),
            Held::Many(heads) => heads.as_slice(),
        }
    }

    /// Puts the head last. After want of memory the heads are as before.
    pub fn push(&mut self, alloc: Global, head: u32) -> Result<(), NoMemory>
        ensures ok { OnOk result (self.new ≡ self.old ++ head ∷ []) }
        ensures err { OnErr result (self.new ≡ self.old) }
    {
        if let Held::Many(heads) = &mut self.held {
            heads.push(head)?;
            return Ok(());
        }
        let held = with_last(alloc, self.as_slice(), head)?;
        self.held = held;
        Ok(())
    }

    /// The same heads again.
    pub fn copy(&self, alloc: Global) -> Result<Heads, NoMemory>
        ensures { IfOk result (λ it. it ≡ self.now) }
    {
        Heads::from_slice(alloc, self.as_slice())
    }
}

fn with_last(alloc: Global, heads: &[u32], head: u32) -> Result<Held, NoMemory>
    ensures { IfOk result (λ held. heads_held held ≡ heads.now ++ head ∷ []) }
{
    match heads {
        [] => Ok(Held::One([head])),
        [one] => Ok(Held::Two([*one, head])),
        _ => {
            let mut all = Vec::with_capacity(alloc, heads.len() + 1)?;
            all.extend_from_slice(heads)?;
            all.push(head)?;
            Ok(Held::Many(Box::new(alloc, all)?))
        }
    }
}

fn many_of(alloc: Global, heads: &[u32]) -> Result<Held, NoMemory>
    ensures { IfOk result (λ held. heads_held held ≡ heads.now) }
{
    let heads = Vec::from_slice(alloc, heads)?;
    Ok(Held::Many(Box::new(alloc, heads)?))
}

impl Copied for Heads {
    fn copied(&self, alloc: Global) -> Result<Heads, NoMemory> {
        self.copy(alloc)
    }
}
