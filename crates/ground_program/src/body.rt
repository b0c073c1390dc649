// The body of a rule. Up to two literals stand in place, with no allocation.
ghost use Rattle.std.specs.Prelude.{◌≡◌, [], ◌∷◌, ◌++◌, ◌<◌, length, slice_get, Some};
ghost use Rattle.std.specs.Prelude.{IfOk, OnOk, OnErr};
ghost use Rattle.ground_program.specs.Held.{body_held};

use crate::Weighted;
use item_list::{Copied, NoMemory};
use std::alloc::Global;
use std::marker::Model;

/// Where literals are kept.
#[derive(Debug, Drop)]
enum Held {
    None,
    One([Weighted; 1]),
    Two([Weighted; 2]),
    Many(Vec<Weighted>),
}

/// The literals of a body with their weights, which contracts see as their list.
#[derive(Debug, Drop)]
pub struct Body {
    held: Held,
}

impl Model for Body {
    ghost use Rattle.std.specs.Prelude.{List};
    ghost use Rattle.ground_program.specs.declared.program.Weighted.{Weighted};

    ghost Value = { List Weighted };

    ghost use Rattle.ground_program.specs.Held.{body_held};

    ghost view = { λ it. body_held it.held };
}

impl Body {
    /// No literals. They take no memory.
    pub fn open() -> Body
        ensures { result ≡ [] }
    {
        Body { held: Held::None }
    }

    /// One literal. It takes no memory.
    pub fn one(part: Weighted) -> Body
        ensures { result ≡ part ∷ [] }
    {
        Body {
            held: Held::One([part]),
        }
    }

    /// These literals, in this order.
    pub fn from_slice(alloc: Global, parts: &[Weighted]) -> Result<Body, NoMemory>
        ensures { IfOk result (λ it. it ≡ parts.now) }
    {
        let held = match parts {
            [] => Held::None,
            [one] => Held::One([*one]),
            [one, two] => Held::Two([*one, *two]),
            _ => many_of(alloc, parts)?,
        };
        Ok(Body { held })
    }

    /// The number of literals.
    pub fn len(&self) -> usize
        ensures { result ≡ length self.now }
    {
        self.as_slice().len()
    }

    /// The literal at place `at`, from 0.
    pub fn get(&self, at: usize) -> &Weighted
        requires { at < length self.now }
        ensures { slice_get self.now at ≡ Some result.now }
    {
        &self.as_slice()[at]
    }

    /// All literals in order.
    pub fn as_slice(&self) -> &[Weighted]
        ensures { result.now ≡ self.now }
    {
        match &self.held {
            Held::None => &[],
            Held::One(parts) => parts.as_slice(),
            Held::Two(parts) => parts.as_slice(),
            Held::Many(parts) => parts.as_slice(),
        }
    }

    /// Puts the literal last. After want of memory the body is as before.
    pub fn push(&mut self, alloc: Global, part: Weighted) -> Result<(), NoMemory>
        ensures ok { OnOk result (self.new ≡ self.old ++ part ∷ []) }
        ensures err { OnErr result (self.new ≡ self.old) }
    {
        if let Held::Many(parts) = &mut self.held {
            parts.push(part)?;
            return Ok(());
        }
        let held = with_last(alloc, self.as_slice(), part)?;
        self.held = held;
        Ok(())
    }

    /// The same body again.
    pub fn copy(&self, alloc: Global) -> Result<Body, NoMemory>
        ensures { IfOk result (λ it. it ≡ self.now) }
    {
        Body::from_slice(alloc, self.as_slice())
    }
}

fn with_last(alloc: Global, parts: &[Weighted], part: Weighted) -> Result<Held, NoMemory>
    ensures { IfOk result (λ held. body_held held ≡ parts.now ++ part ∷ []) }
{
    match parts {
        [] => Ok(Held::One([part])),
        [one] => Ok(Held::Two([*one, part])),
        _ => {
            let mut all = Vec::with_capacity(alloc, parts.len() + 1)?;
            all.extend_from_slice(parts)?;
            all.push(part)?;
            Ok(Held::Many(all))
        }
    }
}

fn many_of(alloc: Global, parts: &[Weighted]) -> Result<Held, NoMemory>
    ensures { IfOk result (λ held. body_held held ≡ parts.now) }
{
    let parts = Vec::from_slice(alloc, parts)?;
    Ok(Held::Many(parts))
}

impl Copied for Body {
    fn copied(&self, alloc: Global) -> Result<Body, NoMemory> {
        self.copy(alloc)
    }
}
