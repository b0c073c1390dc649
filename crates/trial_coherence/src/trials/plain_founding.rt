// Founding by its definition: rounds over all rules, with no thought for time. A set of atoms is a
// number with a bit for each, which does for programs of fewer than 32 atoms.
use clause_store::{Lit, Trail, Value};
use normal_program::{BodyOf, Normal, NormalRule};

/// The bit of an atom.
pub fn bit(atom: u32) -> u32 {
    1u32 << (atom % 32)
}

/// Whether a literal is one of the trail's and has this value.
fn has_value(trail: &Trail, lit: Lit, value: Value) -> bool {
    trail.has(lit) && trail.value(lit) == value
}

/// The literal that says that a variable is true.
fn positive(var: u32) -> Lit {
    Lit(var.saturating_mul(2))
}

/// Whether an atom is false.
fn is_false(trail: &Trail, atom: u32) -> bool {
    has_value(trail, positive(atom), Value::No)
}

/// What the literals of a body weigh of which the negative ones aren't false and the positive ones
/// are founded.
fn founded_weight(trail: &Trail, founded: u32, body: &BodyOf) -> u64 {
    let mut weight = 0u64;
    for part in body.parts.as_slice() {
        let atom = part.lit.atom;
        let counts = if part.lit.negated {
            !has_value(trail, positive(atom), Value::Yes)
        } else {
            founded & bit(atom) != 0
        };
        if counts {
            weight = weight.saturating_add(part.weight);
        }
    }
    weight
}

/// Whether a rule can fire with what is founded.
fn is_reached(normal: &Normal, trail: &Trail, founded: u32, rule: &NormalRule) -> bool {
    let var = normal.atoms.saturating_add(1).saturating_add(rule.body);
    match normal.bodies.as_slice().get(rule.body as usize) {
        None => false,
        Some(body) => {
            !has_value(trail, positive(var), Value::No)
                && founded_weight(trail, founded, body) >= u64::from(body.bound)
        }
    }
}

/// What is founded with the heads of a rule that aren't false.
fn with_heads(trail: &Trail, founded: u32, rule: &NormalRule) -> u32 {
    let mut more = founded;
    for head in rule.heads.as_slice() {
        if !is_false(trail, *head) {
            more |= bit(*head);
        }
    }
    more
}

/// What is founded after one more round.
fn after_round(normal: &Normal, trail: &Trail, founded: u32) -> u32 {
    let mut more = founded;
    for rule in normal.rules.as_slice() {
        if is_reached(normal, trail, more, rule) {
            more = with_heads(trail, more, rule);
        }
    }
    more
}

/// The founded atoms.
fn founded_atoms(normal: &Normal, trail: &Trail) -> u32 {
    let mut founded = 0;
    for _ in 0..32u32 {
        founded = after_round(normal, trail, founded);
    }
    founded
}

/// The atoms that are neither false nor founded.
pub fn left_over(normal: &Normal, trail: &Trail) -> u32 {
    let founded = founded_atoms(normal, trail);
    let mut left = 0;
    for at in 0..normal.atoms {
        let atom = at.saturating_add(1);
        if !is_false(trail, atom) && founded & bit(atom) == 0 {
            left |= bit(atom);
        }
    }
    left
}

/// Whether all literals are false but at most one, which is unset.
pub fn may_force(trail: &Trail, clause: &[Lit]) -> bool {
    let mut open = 0u32;
    for lit in clause {
        if has_value(trail, *lit, Value::Yes) {
            return false;
        }
        if !has_value(trail, *lit, Value::No) {
            open = open.saturating_add(1);
        }
    }
    open < 2
}

/// Whether a clause has the negation of one of these atoms.
pub fn denies_one(atoms: u32, clause: &[Lit]) -> bool {
    for lit in clause {
        if lit.is_negated() && atoms & bit(lit.var().0) != 0 {
            return true;
        }
    }
    false
}
