// The four cases, with no thought for time.
use clause_store::{Lit, Trail, Value};
use normal_program::{BodyOf, Normal};

/// The value of a literal, and unset where it isn't one of the trail's.
fn value_of(trail: &Trail, lit: Lit) -> Value {
    if trail.has(lit) {
        trail.value(lit)
    } else {
        Value::Unset
    }
}

/// A literal of a body. No program of a test has so many atoms that it is lost.
fn lit_of(atom: u32, negated: bool) -> Lit {
    Lit(atom.saturating_mul(2).saturating_add(u32::from(negated)))
}

/// What the true literals of a body weigh, where `extra` counts as true.
fn true_weight(trail: &Trail, body: &BodyOf, extra: Lit) -> u64 {
    let mut sum: u64 = 0;
    for part in body.parts.as_slice() {
        let lit = lit_of(part.lit.atom, part.lit.negated);
        if lit.0 == extra.0 || matches!(value_of(trail, lit), Value::Yes) {
            sum = sum.saturating_add(part.weight);
        }
    }
    sum
}

/// What those literals of a body weigh that aren't false, where `without` counts as false.
fn open_weight(trail: &Trail, body: &BodyOf, without: Lit) -> u64 {
    let mut sum: u64 = 0;
    for part in body.parts.as_slice() {
        let lit = lit_of(part.lit.atom, part.lit.negated);
        if lit.0 != without.0 && !matches!(value_of(trail, lit), Value::No) {
            sum = sum.saturating_add(part.weight);
        }
    }
    sum
}

/// Whether a body whose variable is true needs a literal, or one whose variable is false refuses
/// it.
fn forces(trail: &Trail, body: &BodyOf, var: Value, lit: Lit) -> bool {
    let bound = u64::from(body.bound);
    let value = value_of(trail, lit);
    match var {
        Value::Yes => !matches!(value, Value::Yes) && open_weight(trail, body, lit) < bound,
        Value::No => !matches!(value, Value::No) && true_weight(trail, body, lit) >= bound,
        Value::Unset => false,
    }
}

/// Whether a weight body gives a clause. No literal has code 0.
fn gives(trail: &Trail, body: &BodyOf, var: Value) -> bool {
    let bound = u64::from(body.bound);
    if true_weight(trail, body, Lit(0)) >= bound && !matches!(var, Value::Yes) {
        return true;
    }
    if open_weight(trail, body, Lit(0)) < bound && !matches!(var, Value::No) {
        return true;
    }
    for part in body.parts.as_slice() {
        if forces(trail, body, var, lit_of(part.lit.atom, part.lit.negated)) {
            return true;
        }
    }
    false
}

/// Whether some weight body gives a clause.
pub fn some_gives(trail: &Trail, normal: &Normal) -> bool {
    let mut var = normal.atoms;
    for body in normal.bodies.as_slice() {
        var = var.saturating_add(1);
        if !body.is_conjunctive() && gives(trail, body, value_of(trail, lit_of(var, false))) {
            return true;
        }
    }
    false
}

/// Whether all literals are false but at most one, and that one is unset.
pub fn is_false_but_one(trail: &Trail, clause: &[Lit]) -> bool {
    let mut unset: u32 = 0;
    for lit in clause {
        match value_of(trail, *lit) {
            Value::Yes => return false,
            Value::No => {}
            Value::Unset => unset = unset.saturating_add(1),
        }
    }
    unset <= 1
}
