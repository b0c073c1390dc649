// Rules, bodies and sets as tables write them.
use ground_program::{AtomLit, Body, Heads, Kind, Rule, Set, Weighted};
use item_list::NoMemory;
use std::alloc::Global;

/// A body from atoms, whether they are negated, and weights.
pub fn body_of(alloc: Global, parts: &[(u32, bool, u32)]) -> Result<Body, NoMemory> {
    let mut body = Body::open();
    for (atom, negated, weight) in parts {
        let lit = AtomLit {
            atom: *atom,
            negated: *negated,
        };
        let weight = *weight;
        body.push(alloc, Weighted { lit, weight })?;
    }
    Ok(body)
}

/// A rule with such a body.
pub fn rule_of(
    alloc: Global,
    kind: Kind,
    heads: &[u32],
    bound: u32,
    parts: &[(u32, bool, u32)],
) -> Result<Rule, NoMemory> {
    let heads = Heads::from_slice(alloc, heads)?;
    let body = body_of(alloc, parts)?;
    Ok(Rule {
        kind,
        heads,
        bound,
        body,
    })
}

/// The set of these positions over the atoms 1 to `last`.
pub fn set_of(alloc: Global, last: u32, places: &[u32]) -> Result<Set, NoMemory> {
    let mut set = Set::open();
    for place in 0..=last {
        set.push(alloc, places.contains(&place))?;
    }
    Ok(set)
}
